// The list of the texts of a board.

ghost use Rattle.std.specs.Prelude.{◌≡◌, ◌≤◌, ◌++◌, ◌∷◌, [], length, Ok, IfOk, IfErr, OnOk};
ghost use Rattle.board_files.specs.Given.{all_given, texts_listed, StopsWhere};
ghost use Rattle.board_files.specs.Lists.{ListsAll, StopsAll, files_of};
ghost use Rattle.board_files.specs.Progress.{files_left};
ghost use Rattle.board_files.specs.declared.lists.Inside.TheVariants as inside;
ghost use Rattle.board_files.specs.declared.lists.Stopped.TheVariants as stopped;

use crate::openers::{FileId, Opener, is_known};
use crate::paths::{folder_of, path_from};
use brief_tokens::{FileNamed, Tokens, begin};
use lexer::Letters;
use plan_text::{PlanError, Refused};
use run_parts::RunError;
use std::alloc::{AllocError, Global};

// So many texts there may be before a file that a head names: 64 in all.
const MOST_BEFORE: usize = 63;

/// A text of the list, and its path.
#[derive(Drop)]
pub struct Listed {
    pub path: Vec<u8>,
    pub text: Vec<u8>,
}

/// A text that was given, and which file it is. The folder is that from which it names files.
#[derive(Drop)]
pub struct GivenText {
    pub listed: Listed,
    pub folder: Vec<u8>,
    pub id: FileId,
}

/// Why there is no list.
#[derive(Drop)]
pub enum Unlisted {
    /// What is wrong in this text, the first, and the texts before it that stand in the list by then.
    In(Listed, Why, Vec<Listed>),
    /// An allocation failed.
    NoMemory,
}

/// What is wrong at a token of a head.
#[derive(Drop)]
pub enum Why {
    /// It is refused.
    Refused(Refused),
    /// The file of this path, named on this line, cannot be opened or read.
    Unread {
        line: u64,
        path: Vec<u8>,
        error: RunError,
    },
}

/// The texts of a board, in order: of each that was given those that its head names, each with what it names itself before it, and
/// last the text. Each file stands once. So one that stands in the list, or is being read because it led here, is passed over.
///
/// # Errors
///
/// `In` with the first text whose head is refused, or names a file that cannot be opened or read. P2 where a text is no brief, P6
/// where a file would be the 65th text. `NoMemory` where an allocation fails.
pub fn list_texts<O: Opener>(
    alloc: Global,
    opener: &mut O,
    given: Vec<GivenText>,
) -> Result<Vec<Listed>, Unlisted>
    ensures listed { IfOk result (λ it.
        ListsAll O.files (all_given given.items) [] opener.old (texts_listed it.items) opener.new) }
    ensures stops { IfErr result (λ e.
        StopsWhere (λ stop. StopsAll O.files (all_given given.items) [] opener.old stop opener.new) e) }
{
    let mut list = ListMade {
        alloc,
        texts: Vec::new(alloc),
        known: Vec::new(alloc),
    };
    for text in given {
        let added = list.add_given(opener, text);
        match added {
            Ok(()) => {}
            Err(Stopped::At(text, why)) => return Err(Unlisted::In(text, why, list.texts)),
            Err(Stopped::NoMemory) => return Err(Unlisted::NoMemory),
        }
    }
    Ok(list.texts)
}

// Where a list goes no further.
#[derive(Drop)]
enum Stopped {
    At(Listed, Why),
    NoMemory,
}

impl From<AllocError> for Stopped {
    ghost from_gives = { λ _ e. e ≡ stopped.NoMemory };

    fn from(_error: AllocError) -> Stopped {
        Stopped::NoMemory
    }
}

// The same within a text: at a token of its own head, or elsewhere.
#[derive(Drop)]
enum Inside {
    Here(Why),
    There(Stopped),
}

impl From<AllocError> for Inside {
    ghost from_gives = { λ _ e. e ≡ inside.There stopped.NoMemory };

    fn from(_error: AllocError) -> Inside {
        Inside::There(Stopped::NoMemory)
    }
}

// A list that is being made.
#[derive(Drop)]
struct ListMade {
    alloc: Global,
    texts: Vec<Listed>,
    // the files of these, and of those that are being read
    known: Vec<FileId>,
}

impl ListMade {
    ghost use Rattle.std.specs.Prelude.{◌≡◌, ◌≤◌, ◌++◌, ◌∷◌, [], length, IfErr, OnOk};
    ghost use Rattle.plan_text.specs.declared.errors.PlanError.TheVariants.{TooMany};
    ghost use Rattle.brief_tokens.specs.Reading.{left};
    ghost use Rattle.board_files.specs.Given.{given, listed};
    ghost use Rattle.board_files.specs.Lists.{Lists, Adds, AddsText, Stops, StopsAt, StopsText, path_from, folder_of, most_before};
    ghost use Rattle.board_files.specs.Lists as spec;
    ghost use Rattle.board_files.specs.Progress.{Added, AddsGiven, AddsHead, StopsGiven, IsStopped, IsInside};

    // A text that was given, unless it stands in the list already.
    fn add_given<O: Opener>(&mut self, opener: &mut O, text: GivenText) -> Result<(), Stopped>
        ensures added { OnOk result (Added (λ texts then.
            AddsGiven O.files (given text) self.old.known.items opener.old texts then opener.new) self.old self.new) }
        ensures stops { IfErr result (λ e. IsStopped e (λ stop.
            StopsGiven O.files (given text) self.old.known.items opener.old stop opener.new)) }
    {
        let GivenText { listed, folder, id } = text;
        if is_known(id, self.known.as_slice()) {
            return Ok(());
        }
        match self.add_text(opener, listed, folder.as_slice(), id) {
            Ok(()) => Ok(()),
            Err(stopped) => Err(stopped),
        }
    }

    // A text, after the files that its head names.
    #[cycle(listing)]
    fn add_text<O: Opener>(
        &mut self,
        opener: &mut O,
        text: Listed,
        folder: &[u8],
        id: FileId,
    ) -> Result<(), Stopped>
        ensures added { OnOk result (Added (λ texts then.
            AddsText O.files (listed text) folder.now (self.old.known.items ++ id ∷ []) opener.old texts then opener.new)
            self.old self.new) }
        ensures stops { IfErr result (λ e. IsStopped e (λ stop.
            StopsText O.files (listed text) folder.now (self.old.known.items ++ id ∷ []) opener.old stop opener.new)) }
    {
        push(&mut self.known, id)?;
        match self.add_head(opener, &text, folder) {
            Ok(()) => match push(&mut self.texts, text) {
                Ok(()) => Ok(()),
                Err(_) => Err(Stopped::NoMemory),
            },
            Err(Inside::Here(why)) => Err(Stopped::At(text, why)),
            Err(Inside::There(stopped)) => Err(stopped),
        }
    }

    // The files that the head of a text names. A brief of the first version names none.
    #[cycle(listing)]
    fn add_head<O: Opener>(
        &mut self,
        opener: &mut O,
        text: &Listed,
        folder: &[u8],
    ) -> Result<(), Inside>
        ensures added { OnOk result (Added (λ texts then.
            AddsHead O.files (listed text.now) folder.now self.old.known.items opener.old texts then opener.new)
            self.old self.new) }
        ensures stops { IfErr result (λ e. IsInside (listed text.now) e (λ stop.
            StopsText O.files (listed text.now) folder.now self.old.known.items opener.old stop opener.new)) }
    {
        match files_begin(text.text.as_slice()) {
            Ok(Some(tokens)) => match self.add_files(opener, tokens, text, folder) {
                Ok(()) => Ok(()),
                Err(inside) => Err(inside),
            },
            Ok(None) => Ok(()),
            Err(refused) => Err(Inside::Here(Why::Refused(refused))),
        }
    }

    // The files that the head of this text names from here on.
    #[cycle(listing)]
    fn add_files<O: Opener>(
        &mut self,
        opener: &mut O,
        mut tokens: Tokens<'_>,
        text: &Listed,
        folder: &[u8],
    ) -> Result<(), Inside>
        ensures added { OnOk result (Added (λ texts then.
            Lists O.files folder.now (left tokens.entry) self.old.known.items opener.old texts then opener.new)
            self.old self.new) }
        ensures stops { IfErr result (λ e. IsInside (listed text.now) e (λ stop.
            Stops O.files (listed text.now) folder.now (left tokens.entry) self.old.known.items opener.old stop opener.new)) }
    {
        loop {
            let file = match tokens.next_file() {
                Ok(Some(file)) => file,
                Ok(None) => return Ok(()),
                Err(refused) => return Err(Inside::Here(Why::Refused(refused))),
            };
            let too_many = tokens.no_name(PlanError::TooMany(file.line));
            if let Err(inside) = self.add_file(opener, file, text, folder, too_many) {
                return Err(inside);
            }
            if let Err(refused) = tokens.end_file() {
                return Err(Inside::Here(Why::Refused(refused)));
            }
        }
    }

    // The file that has this name in this text, unless it is known. It is refused so where there are too many.
    #[cycle(listing)]
    fn add_file<O: Opener>(
        &mut self,
        opener: &mut O,
        file: FileNamed<'_>,
        text: &Listed,
        folder: &[u8],
        too_many: Refused,
    ) -> Result<(), Inside>
        requires { too_many.error ≡ TooMany file.line }
        ensures added { OnOk result (Added (λ texts then.
            Adds O.files (path_from folder.now file.entry.name.now) self.old.known.items opener.old texts then opener.new)
            self.old self.new) }
        ensures stops { IfErr result (λ e. IsInside (listed text.now) e (λ stop.
            StopsAt O.files (listed text.now) file.entry.line (path_from folder.now file.entry.name.now)
            self.old.known.items opener.old stop opener.new)) }
    {
        let path = path_from(self.alloc, folder, file.name)?;
        let id = match opener.open(path.as_slice()) {
            Ok(id) => id,
            Err(error) => {
                return Err(Inside::Here(Why::Unread {
                    line: file.line,
                    path,
                    error,
                }));
            }
        };
        if is_known(id, self.known.as_slice()) {
            return Ok(());
        }
        if self.known.len() > MOST_BEFORE {
            return Err(Inside::Here(Why::Refused(too_many)));
        }
        match opener.give() {
            Ok(bytes) => match self.add_opened(opener, Listed { path, text: bytes }, id) {
                Ok(()) => Ok(()),
                Err(stopped) => Err(Inside::There(stopped)),
            },
            Err(error) => {
                Err(Inside::Here(Why::Unread {
                    line: file.line,
                    path,
                    error,
                }))
            }
        }
    }

    // A text that a head names.
    #[cycle(listing)]
    fn add_opened<O: Opener>(
        &mut self,
        opener: &mut O,
        text: Listed,
        id: FileId,
    ) -> Result<(), Stopped>
        requires { length self.old.known.items ≤ most_before }
        ensures added { OnOk result (Added (λ texts then.
            AddsText O.files (listed text) (folder_of text.path.items) (self.old.known.items ++ id ∷ [])
            opener.old texts then opener.new) self.old self.new) }
        ensures stops { IfErr result (λ e. IsStopped e (λ stop.
            StopsText O.files (listed text) (folder_of text.path.items) (self.old.known.items ++ id ∷ [])
            opener.old stop opener.new)) }
    {
        let folder = folder_of(text.path.as_slice()).to_vec(self.alloc)?;
        self.add_text(opener, text, folder.as_slice(), id)
    }
}

// The tokens at which the files of a head begin. A brief of the first version names none.
#[tactic(auto, using(crate::proofs::AddedLemmas::begins_board, crate::proofs::AddedLemmas::begins_other))]
fn files_begin(text: &[u8]) -> Result<Option<Tokens<'_>>, Refused>
    ensures some { IfOk result (λ it. files_of text.now ≡ Ok (files_left it)) }
    ensures refused { IfErr result (λ e. files_of text.now ≡ Err e.error) }
{
    match begin(text) {
        Ok(tokens) => {
            if tokens.letters() == Letters::Board {
                Ok(Some(tokens))
            } else {
                Ok(None)
            }
        }
        Err(refused) => Err(refused),
    }
}

fn push<T: Drop>(all: &mut Vec<T>, one: T) -> Result<(), AllocError>
    ensures { OnOk result (all.new.items ≡ all.old.items ++ one ∷ []) }
{
    match all.push(one) {
        Ok(()) => Ok(()),
        Err(_) => Err(AllocError),
    }
}
