//! The law of reports that were cut off.

ghost use Rattle.vx_report_reader.specs.Reading.{NoFrontIsAReport};

/// No text of a report is the front of the text of another one. So a report that was cut off, of either version, is none,
/// and `read_report` refuses it.
pub fn no_front_is_a_report()
    ensures { NoFrontIsAReport }
{}
