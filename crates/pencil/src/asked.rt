// The number of the bid that is asked for.

// The number that a word of decimal digits writes. A word of anything else, or of a number too large for a bid, writes none.
pub fn number(word: &[u8]) -> Option<usize> {
    if word.is_empty() {
        return None;
    }
    let mut n = 0;
    for digit in word {
        if !digit.is_ascii_digit() {
            return None;
        }
        n = 10 * n + usize::from(*digit - b'0');
        if n >= names::BIDS {
            return None;
        }
    }
    Some(n)
}
