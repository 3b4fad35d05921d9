/// Words that are no command: the first word, counted from 1, such that no command begins
/// with the words up to it; one more than their number where there is no such word.
#[derive(Clone, Copy, Debug, PartialEq, Eq)]
pub struct WordFault {
    pub which: u32,
}
