// What the command line asks for.

/// A call, or several.
#[derive(Clone, Copy)]
pub enum Call {
    /// Whether memory can be refused, as it is told.
    Obeys,
    /// Whether the calls without memory take none that need no text.
    Quiet,
    /// In place of `verify`, the answer to the bytes of both texts.
    Accept,
    /// In place of `verify`, the same for the certificate as it is printed again.
    Reprint,
    /// In place of `verify`, the acceptance of the plan by proofs that were all read before.
    AcceptPlan,
    /// In place of `certify`, the certificate of a table of all pairs.
    Table,
    /// The same, by so many workers.
    TableBy(u32),
    /// In place of `print`, the spelling of a plan that was built again, call by call.
    Rebuild,
    /// The calls on whole lists, of the plan and a dump. The words are the names of the two lines.
    Lists,
    /// A script on the seats of a bench. The words are the starters and the answers of the targets.
    Seats,
    /// Calls without memory, on the plan.
    QuietPlan,
    /// The same, on a table of all its pairs.
    QuietTable,
    /// The same, on the plan and a certificate.
    QuietCertificate,
    /// The same, on a dump. The words are the names of the two lines.
    QuietDump,
    /// The same, on the seats of a bench. The words are the starters and the answers of the targets.
    QuietSeats,
}

const CALLS: [(&str, Call); 14] = [
    ("obeys", Call::Obeys),
    ("quiet", Call::Quiet),
    ("verify-by-accept", Call::Accept),
    ("verify-by-reprint", Call::Reprint),
    ("verify-by-proofs", Call::AcceptPlan),
    ("certify-by-table", Call::Table),
    ("print-by-builder", Call::Rebuild),
    ("lists", Call::Lists),
    ("seats", Call::Seats),
    ("quiet-plan", Call::QuietPlan),
    ("quiet-table", Call::QuietTable),
    ("quiet-certificate", Call::QuietCertificate),
    ("quiet-dump", Call::QuietDump),
    ("quiet-seats", Call::QuietSeats),
];

/// A call, and the words after its name: two files, and two words.
#[derive(Clone, Copy)]
pub struct Asked<'a> {
    pub call: Call,
    pub first: &'a str,
    pub second: &'a str,
    pub one: &'a str,
    pub other: &'a str,
}

/// What the words ask for, of which the first is the program's name, or nothing where they name no call.
pub fn asked_of(words: &[String]) -> Option<Asked<'_>> {
    let one = word_at(words, 4);
    match call_of(word_at(words, 1), one) {
        Some(call) => Some(Asked {
            call,
            first: word_at(words, 2),
            second: word_at(words, 3),
            one,
            other: word_at(words, 5),
        }),
        None => None,
    }
}

fn call_of(name: &str, workers: &str) -> Option<Call> {
    if name == "certify-by-workers" {
        return match workers.parse() {
            Ok(workers) => Some(Call::TableBy(workers)),
            Err(_) => None,
        };
    }
    for (word, call) in &CALLS {
        if *word == name {
            return Some(*call);
        }
    }
    None
}

// The word in this place, or an empty one.
fn word_at(words: &[String], place: usize) -> &str {
    match words.get(place) {
        Some(word) => word.as_str(),
        None => "",
    }
}
