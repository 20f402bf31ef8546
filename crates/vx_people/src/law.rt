//! The law of printed configurations.

ghost use Rattle.vx_people.specs.Read.{ConfigurationsAreReadBack};

/// The law of printed configurations: the word of a configuration that has a value for each option names that configuration, by
/// the reader of the words of commands.
pub fn configurations_are_read_back()
    ensures { ConfigurationsAreReadBack }
{}
