//! The text after the options of a program's help.

/// The text after the options of the help: a line for each application, indented by two blanks, the statuses, and an
/// example, which continues after `Example, `.
#[macro_export]
macro_rules! after_help {
    ($applications:literal, $example:literal) => {
        concat!(
            "Applications, processes 4, 5, .. in the order of the arguments:\n",
            $applications,
            "

Exit status:
  0     the script was executed, or the help or the version was printed
  2     the script has a malformed line: 'bad line N' ends the transcript
  3     the mote halted: 'halt' ends the transcript
  4     the script has more than 16777216 bytes: 'too long' ends the transcript
  5, 6  standard input can't be read, standard output can't be written
  64    invalid arguments
  70    out of memory

Example, ",
            $example
        )
    };
}
