// The lines of a summary.

use bus_rows::Labels;
use dump_findings::{Addresses, Calls, Others, Seen, Tallies};
use growing_text::Text;

/// How often each participant explains a transaction, in the order of their numbers, and then the rest.
pub(crate) fn push_tallies(text: &mut Text, tallies: &Tallies, labels: &Labels) {
    for (label, count) in labels.all().iter().zip(tallies.senders.as_slice()) {
        text.push(label.as_str());
        push_count(text, " ", count.alone);
        push_count(text, " alone, ", count.with_others);
        text.push(" with others\n");
    }
    push_others(text, tallies.others);
}

fn push_others(text: &mut Text, others: Others) {
    push_count(text, "unexplained ", others.unexplained);
    push_count(text, "\ncut ", others.cut);
    push_count(text, "\nunfinished ", others.unfinished);
    text.push("\n");
}

/// How often each address was called, and the rest.
pub(crate) fn push_addresses(text: &mut Text, addresses: &Addresses) {
    for calls in addresses.calls() {
        if calls.times != 0 {
            push_calls(text, *calls);
        }
    }
    push_count(text, "cut ", addresses.cut);
    push_count(text, "\nunfinished ", addresses.unfinished);
    text.push("\n");
}

fn push_calls(text: &mut Text, calls: Calls) {
    let Calls {
        header,
        times,
        nacks,
    } = calls;
    text.push_hex(header >> 1);
    text.push(if header & 1 == 1 { " Rd " } else { " Wr " });
    text.push_number(times);
    push_count(text, " times, ", nacks);
    text.push(" not acknowledged\n");
}

fn push_count(text: &mut Text, before: &str, count: u64) {
    text.push(before);
    text.push_number(count);
}

/// Adds `N transactions`.
pub(crate) fn push_stopped(text: &mut Text, seen: Seen) {
    text.push_number(seen.stopped);
    text.push(" transactions");
}
