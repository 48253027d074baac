//! The commands: their words, the files that each reads and writes, and the statuses at which its
//! work is done.

/// A command of the desk.
#[derive(Clone, Copy, PartialEq)]
pub enum Command {
    Allocate,
    Check,
    Amend,
    Serve,
    Resume,
    Usage,
    Reclear,
    Recheck,
    Report,
    Inspect,
    Make,
    Trial,
}

/// All commands, in the order in which they are told of.
pub const COMMANDS: [Command; 12] = [
    Command::Allocate,
    Command::Check,
    Command::Amend,
    Command::Serve,
    Command::Resume,
    Command::Usage,
    Command::Reclear,
    Command::Recheck,
    Command::Report,
    Command::Inspect,
    Command::Make,
    Command::Trial,
];

impl Command {
    /// Where it stands among all commands.
    pub fn place(self) -> usize {
        match self {
            Command::Allocate => 0,
            Command::Check => 1,
            Command::Amend => 2,
            Command::Serve => 3,
            Command::Resume => 4,
            Command::Usage => 5,
            Command::Reclear => 6,
            Command::Recheck => 7,
            Command::Report => 8,
            Command::Inspect => 9,
            Command::Make => 10,
            Command::Trial => 11,
        }
    }

    /// The words that ask for it; for the season of number 1 with four units, where one is made.
    pub fn words(self) -> &'static str {
        match self {
            Command::Allocate => "allocate CAP SCR CERT REPLIES --workers 1 --nodes 200",
            Command::Check => "check CAP SCR CERT",
            Command::Amend => "amend CAP SCR CERT ASKS ANSWERS",
            Command::Serve => "serve CAP SCR CERT RECORD --links 2",
            Command::Resume => "resume CAP SCR CERT JOURNAL RECORD --links 2",
            Command::Usage => "usage CAP SCR CERT OPERATED NEXT",
            Command::Reclear => "reclear CAP SCR CERT ASKS EXTRA REPLIES --workers 1 --nodes 200",
            Command::Recheck => "recheck CAP SCR CERT ASKS EXTRA",
            Command::Report => "report CAP SCR CERT REPORT PAGE",
            Command::Inspect => "inspect CAP SCR",
            Command::Make => "make 1 4 CAP SCR",
            Command::Trial => "trial 1 4",
        }
    }

    /// The files that it reads, in their order.
    pub fn reads(self) -> &'static str {
        match self {
            Command::Allocate | Command::Inspect => "CAP SCR",
            Command::Check | Command::Serve | Command::Resume | Command::Report => "CAP SCR CERT",
            Command::Amend | Command::Reclear => "CAP SCR CERT ASKS",
            Command::Usage => "CAP SCR CERT OPERATED",
            Command::Recheck => "CAP SCR CERT ASKS EXTRA",
            Command::Make | Command::Trial => "",
        }
    }

    /// The files that it writes, in their order.
    pub fn writes(self) -> &'static str {
        match self {
            Command::Allocate => "CERT REPLIES",
            Command::Amend => "ANSWERS",
            Command::Serve | Command::Resume => "RECORD",
            Command::Usage => "NEXT",
            Command::Reclear => "EXTRA REPLIES",
            Command::Report => "REPORT PAGE",
            Command::Make => "CAP SCR",
            Command::Check | Command::Recheck | Command::Inspect | Command::Trial => "",
        }
    }

    /// Whether its work is done at a status.
    pub fn ends(self, status: u8) -> bool {
        match self {
            Command::Allocate | Command::Trial => status == 0 || status == 8 || status == 9,
            Command::Serve => status == 0 || status == 10 || status == 11,
            Command::Resume => status == 0 || status == 10 || status == 11 || status == 14,
            Command::Reclear => status == 0 || status == 9,
            _ => status == 0,
        }
    }

    /// The file of a call of the cabinet, its reads counted before its writes.
    pub fn file_of(self, call: usize) -> &'static str {
        let reads = self.reads().split_whitespace().count();
        match call.checked_sub(reads) {
            None => self.reads().split_whitespace().nth(call).unwrap_or(""),
            Some(write) => self.writes().split_whitespace().nth(write).unwrap_or(""),
        }
    }
}

/// Whether a name stands in a list of names with blanks between them.
pub fn has_name(names: &str, name: &str) -> bool {
    for one in names.split_whitespace() {
        if one == name {
            return true;
        }
    }
    false
}
