//! Arguments that fit the types of a descriptor.

ghost use Rattle.vx_frames.specs.Fitting.{MatchingAreArguments, WithReceiverAreArguments};

use vx_space::Space;

/// Values that match the types of a method's descriptor at each configuration of a path are arguments with which its frame can begin, where
/// its locals have room for its argument slots (JVMS 2.6.1, 4.7.3).
pub fn matching_are_arguments<S: Space>()
    ensures of_static { MatchingAreArguments S S.Id }
    ensures with_receiver { WithReceiverAreArguments S S.Id }
{}
