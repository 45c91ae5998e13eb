// The answers that never came.

use crate::families::Item;
use crate::paths::Sent;
use crate::trees::{After, Likeness, Node, Tree};
use crate::words::answered;
use growing_text::Lines;
use std::alloc::{AllocError, Global};

// How many are told.
const TOLD: usize = 8;

/// The answers that never came in a message or family, the first few, on a line of their own where there is one.
pub(crate) fn push_unseen(alloc: Global, line: &mut Lines, item: &Item, trees: &Vec<Tree>) {
    let mut told = Told {
        words: Vec::new(alloc),
        count: 0,
    };
    let found = match trees.get(item.written) {
        Some(tree) if tree.likeness == Likeness::Exact || tree.likeness == Likeness::Merged => {
            told.add_each(alloc, tree)
        }
        Some(_) => told.add_alike(alloc, item, trees),
        None => Ok(()),
    };
    match found {
        Ok(()) => told.push_to(line),
        Err(_) => line.cut(),
    }
}

// The answers that are told, and how many there are.
#[derive(Drop)]
struct Told {
    words: Vec<String>,
    count: usize,
}

impl Told {
    // Place by place.
    fn add_each(&mut self, alloc: Global, tree: &Tree) -> Result<(), AllocError> {
        for node in tree.nodes.iter() {
            if node.acked == After::Unseen {
                self.add(alloc, node, " A")?;
            }
            if node.refused == After::Unseen {
                self.add(alloc, node, " NA")?;
            }
        }
        Ok(())
    }

    // Once for all places that are told with the same words.
    fn add_alike(
        &mut self,
        alloc: Global,
        item: &Item,
        trees: &Vec<Tree>,
    ) -> Result<(), AllocError> {
        let mut marks = marked(alloc, item, trees)?;
        for number in item.members.iter() {
            if let Some(tree) = trees.get(*number) {
                self.add_marked(alloc, tree, &mut marks)?;
            }
        }
        Ok(())
    }

    fn add_marked(
        &mut self,
        alloc: Global,
        tree: &Tree,
        marks: &mut Vec<Mark>,
    ) -> Result<(), AllocError> {
        for node in tree.nodes.iter() {
            let Some(mark) = marks.get_mut(number_of(node.sent)) else {
                continue;
            };
            let Mark { acked, refused } = *mark;
            *mark = SEEN;
            if !acked {
                self.add(alloc, node, " A")?;
            }
            if !refused {
                self.add(alloc, node, " NA")?;
            }
        }
        Ok(())
    }

    // One more answer.
    fn add(&mut self, alloc: Global, node: &Node, answer: &str) -> Result<(), AllocError> {
        self.count = self.count.saturating_add(1);
        if self.count <= TOLD {
            self.words.push(answered(alloc, node, answer)?)?;
        }
        Ok(())
    }

    // With commas between them, and the sign that there are more.
    fn push_to(self, line: &mut Lines) {
        let Told { words, count } = self;
        if count == 0 {
            return;
        }
        line.begin("# never seen:", "#    ");
        let mut number = 0usize;
        for mut word in words {
            number = number.saturating_add(1);
            if number < count && word.push(',').is_err() {
                line.cut();
            }
            line.word(word.as_str());
        }
        if count > TOLD {
            line.word("..");
        }
        line.end();
    }
}

// Which answers came to what is sent, or were told.
#[derive(Clone, Copy)]
struct Mark {
    acked: bool,
    refused: bool,
}

const SEEN: Mark = Mark {
    acked: true,
    refused: true,
};

const UNSEEN: Mark = Mark {
    acked: false,
    refused: false,
};

// What is told with one word has one number, below this.
const NUMBERS: usize = 769;

fn number_of(sent: Sent) -> usize {
    match sent {
        Sent::Write(address) => usize::from(address),
        Sent::Read(address, _) => usize::from(address).saturating_add(256),
        Sent::Register(byte) => usize::from(byte).saturating_add(512),
        Sent::Data(_) => 768,
    }
}

// The answers that came in the messages of an item, by what they answer.
fn marked(alloc: Global, item: &Item, trees: &Vec<Tree>) -> Result<Vec<Mark>, AllocError> {
    let mut marks = Vec::new(alloc);
    for _ in 0..NUMBERS {
        marks.push(UNSEEN)?;
    }
    for number in item.members.iter() {
        if let Some(tree) = trees.get(*number) {
            mark_all(&mut marks, tree);
        }
    }
    Ok(marks)
}

fn mark_all(marks: &mut Vec<Mark>, tree: &Tree) {
    for node in tree.nodes.iter() {
        if let Some(mark) = marks.get_mut(number_of(node.sent)) {
            mark.acked |= node.acked != After::Unseen;
            mark.refused |= node.refused != After::Unseen;
        }
    }
}
