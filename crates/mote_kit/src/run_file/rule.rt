//! The rules of files that a line may break, whatever its words are: what a person reads.

pub const ROWS_ABOVE: &str = "a row comes after a line rows, or after another row";

pub(crate) const LONGEST_TEXT: &str = "a text has at most 255 bytes";
/// `at` advances the clock by so many ticks.
pub(crate) const MOST_TICKS: &str = "the clock goes on by at most 4294967295 ticks at once";

pub(crate) const NETWORK_ABOVE: &str = "a run with a line mote begins with a line network";

pub(crate) const NETWORK_FIRST: &str = "network is the first line of a run, or none";

pub(crate) const LAST_LINE: &str = "the script has ended with its last line";

pub(crate) const HEADERS: &str = "header takes 16 or 8";

pub(crate) const QUOTAS: &str =
    "mmem has no room for a quota of each application and one of the frames";

pub(crate) const MOST_APPLICATIONS: &str = "a run has at most 16 applications";

pub(crate) const RUN_ABOVE: &str = "a line above the first run";

pub(crate) const NAME: &str = "a run has no name";
