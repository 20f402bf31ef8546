//! Exceptions, handlers and exits.

ghost use Rattle.vx_computed.specs.Exceptions.{TwoExceptions, ExitAndUncaught, PrintedException, CauseAsMessage, DeepException, ItsTrace};

/// Exceptions, handlers and exits.
pub fn throwing_runs()
    // Two exceptions at one instruction, each with its handler.
    ensures two_exceptions { TwoExceptions }
    // An exit, and an exception that nothing catches.
    ensures exit_and_uncaught { ExitAndUncaught }
    // The text of an exception, by the bytecode of the core classes.
    ensures printed_exception { PrintedException }
    // A cause, whose text is the message.
    ensures cause_as_message { CauseAsMessage }
    // An exception that leaves two frames.
    ensures deep_exception { DeepException }
    // Its last frames, by method number and position: those before anything was unwound.
    ensures its_trace { ItsTrace }
{}
