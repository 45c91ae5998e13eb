// Why a pair is unsafe, in words.

use message_tree::Kind;

/// Why those are unsafe of whom one does this next, and the other that.
pub fn why_unsafe(first: Kind, second: Kind) -> &'static str {
    match (first, second) {
        (Kind::Claim, _) | (_, Kind::Claim) => "an interrupt has the same header",
        (Kind::Again, Kind::Stop) | (Kind::Stop, Kind::Again) => "one ends, one repeats START",
        (Kind::Again, _) | (_, Kind::Again) => "one goes on, one repeats START",
        (Kind::Stop, _) | (_, Kind::Stop) => "lengths differ",
        _ => "one sends, one listens",
    }
}
