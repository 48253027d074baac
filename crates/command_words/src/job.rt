//! What a command line asks for: the commands with their names and numbers.

ghost use Rattle.std.specs.Prelude.{◌≡◌, Some};
ghost use Rattle.std.specs.String.{string_bytes};
ghost use Rattle.command_words.specs.Faults.{word_fault_text};

use std::alloc::{AllocError, AllocFailed};
use std::error::Error;
use std::fmt;
use std::marker::Model;

/// The name of a file, as a word of the command line gives it.
#[derive(Drop)]
pub struct Name {
    text: String,
}

impl Model for Name {
    ghost use Rattle.std.specs.Prelude.{List, ℕ};
    ghost use Rattle.std.specs.String.{string_bytes};

    ghost Value = { List ℕ };

    ghost view = { λ name. string_bytes name.text };
}

impl Name {
    /// The name that this text is. It takes no memory.
    pub fn new(text: String) -> Name
        ensures { result ≡ string_bytes text }
    {
        Name { text }
    }

    /// The name as text.
    pub fn text(&self) -> &str
        ensures { result.now ≡ self.now }
    {
        self.text.as_str()
    }
}

/// Names in the order in which a command takes them.
#[derive(Drop)]
pub struct NameList {
    items: Vec<Name>,
}

impl Model for NameList {
    ghost use Rattle.std.specs.Prelude.{List, ℕ};

    ghost Value = { List (List ℕ) };

    ghost view = { λ list. list.items.items };
}

impl NameList {
    /// The list of these names. It takes no memory.
    pub fn new(items: Vec<Name>) -> NameList
        ensures { result ≡ items.items }
    {
        NameList { items }
    }

    /// The names in order.
    pub fn items(&self) -> &[Name]
        ensures { result.now ≡ self.now }
    {
        &self.items
    }
}

/// What a command line asks for.
#[derive(Drop)]
pub enum Job {
    /// Allot the requests of a file within the capacity of another. The names are those of the
    /// capacity file, the requests, the certificate and the replies.
    Allocate {
        names: NameList,
        /// How many nodes the search of a stage may have, from 1 to 1,000,000.
        nodes: u32,
        /// How many workers search, from 1 to 16.
        workers: u32,
    },
    /// Check a certificate. The names are those of the capacity file, the requests and the
    /// certificate.
    Check {
        names: NameList,
    },
    /// Answer amendments, one after the other, from the book of a certificate. The names are those
    /// of the capacity file, the requests, the certificate, the asks and the answers.
    Amend {
        names: NameList,
    },
    /// Serve clients from the book of a certificate, and write what was asked and answered. The
    /// names are those of the capacity file, the requests, the certificate and the record.
    Serve {
        names: NameList,
        /// How many links each worker serves, from 1 to 1,000.
        links: u32,
        /// The port at which clients come, from 1 to 65,535.
        port: u32,
        /// How many workers serve, from 1 to 16.
        workers: u32,
    },
    /// Serve clients as `Serve` does, each entry in a journal before it is answered. The names are
    /// those of the capacity file, the requests, the certificate, the journal and the record.
    Resume {
        names: NameList,
        /// How many links each worker serves, from 1 to 1,000.
        links: u32,
        /// The port at which clients come, from 1 to 65,535.
        port: u32,
        /// How many workers serve, from 1 to 16.
        workers: u32,
    },
    /// Say which series of the book of a certificate were operated often enough to have precedence,
    /// and write their lines for the next equivalent season. The names are those of the capacity
    /// file, the requests, the certificate, the reports and the next season's lines.
    Usage {
        names: NameList,
    },
    /// Answer amendments as `Amend` does, and give the asks that were refused what the book then
    /// leaves, as one more stage with its proof. The names are those of the capacity file, the
    /// requests, the certificate, the asks, the stage and the replies.
    Reclear {
        names: NameList,
        /// How many nodes the search of the stage may have, from 1 to 1,000,000.
        nodes: u32,
        /// How many workers search, from 1 to 16.
        workers: u32,
    },
    /// Check a stage that `Reclear` wrote, or anyone. The names are those of the capacity file, the
    /// requests, the certificate, the asks and the stage.
    Recheck {
        names: NameList,
    },
    /// Say why each series was given what it was given, by a certificate. The names are those of
    /// the capacity file, the requests, the certificate, the report and its page.
    Report {
        names: NameList,
    },
    /// Say what a capacity file and requests hold, or what is wrong in them. The names are those of
    /// the two.
    Inspect {
        names: NameList,
    },
    /// Make a generated season, and write it. The names are those of the capacity file and the
    /// requests.
    Make {
        /// The season's number, at most 65,536.
        number: u32,
        /// How many units it has, from 1 to 4,096.
        units: u32,
        names: NameList,
    },
    /// Allot a generated season, and check its certificate. No file is read or written.
    Trial {
        /// The season's number, at most 65,536.
        number: u32,
        /// How many units it has, from 1 to 4,096.
        units: u32,
    },
}

/// Why words are no job.
#[derive(Clone, Copy, Debug, PartialEq, Eq)]
pub enum WordFault {
    /// They are no command's words.
    Words,
    /// Memory ran out.
    Memory,
}

impl fmt::Display for WordFault {
    ghost output = { λ fault. Some (word_fault_text fault) };

    fn fmt<W: fmt::Write>(&self, f: &mut fmt::Formatter<W>) -> fmt::Result {
        match self {
            WordFault::Words => f.write_str("no command has these words"),
            WordFault::Memory => f.write_str("out of memory"),
        }
    }
}

impl Error for WordFault {}

impl From<AllocError> for WordFault {
    ghost use Rattle.command_words.specs.declared.job.WordFault.{WordFault};

    ghost from_gives = { λ _ fault. fault ≡ WordFault.Memory };

    fn from(_error: AllocError) -> WordFault {
        WordFault::Memory
    }
}

impl<T: Drop> From<AllocFailed<T>> for WordFault {
    ghost use Rattle.command_words.specs.declared.job.WordFault.{WordFault};

    ghost from_gives = { λ _ fault. fault ≡ WordFault.Memory };

    fn from(_error: AllocFailed<T>) -> WordFault {
        WordFault::Memory
    }
}
