//! Who answers messages.
ghost use Rattle.std.specs.Prelude.{◌≡◌, ◌≤◌, ◌++◌, List, ℕ, length, IfOk, IfErr};
ghost use Rattle.slot_text.specs.Lines.{lines_of};
ghost use Rattle.scr_reader.specs.Streams.{AreOfMessage};
ghost use Rattle.session_desk.specs.Seen.{SeenGoesOn};

use std::alloc::Global;

/// The most bytes that the lines of a message have: 1,000 lines of 200 bytes, each with CR and LF.
pub const LONGEST_MESSAGE: usize = 202_000;

/// Why a message was not answered whole.
#[derive(Clone, Copy, Debug, PartialEq, Eq)]
pub enum AnswerFault {
    /// The history holds so many entries, as many as it may.
    Full { length: u64 },
    /// What is kept beside the history has failed, with this count of faults.
    Broken { faults: u64 },
    Memory,
}

/// Who answers the messages of one caller, by a pass that is lent for each message.
pub(crate) trait Responder {
    ghost use Rattle.session_desk.specs.declared.responder.AnswerFault.{AnswerFault};
    ghost use Rattle.session_desk.specs.declared.responder.TheConstants.{LONGEST_MESSAGE};

    /// What is entered for an ask. Proofs alone have lists of it.
    type Entry;

    /// What a caller is let in by.
    type Pass;

    /// What the answers depend on: whose messages are answered, and for which caller. Proofs alone
    /// have values of it.
    type About;

    /// The entries that a pass made so far.
    ghost own: { Self.Pass → List Self.Entry };

    /// The entries that a pass has seen so far.
    ghost seen: { Self.Pass → List Self.Entry };

    /// A history that may be seen here.
    ghost legal: { Self → List Self.Entry → Type 0 };

    /// The pass may be used here, and is of the caller that the answers are for.
    ghost ready: { Self → Self.Pass → Type 0 };

    ghost about: { Self → Self.About };

    /// The entries and the text of a message, by its lines.
    ghost answers: { Self.About → List (List ℕ) → List Self.Entry → List ℕ → Type 0 };

    /// The entries of a message that was not answered whole, and why.
    ghost begins: { Self.About → AnswerFault → List (List ℕ) → List Self.Entry → Type 0 };

    /// What is known of a pass with which an ask was refused.
    ghost stopped: { Self → Self.Pass → AnswerFault → Type 0 };

    /// A piece of input has come. Behind a whole one more is mostly at hand.
    fn piece_came(&self, whole: bool);

    /// All messages that the piece completed have been answered.
    fn piece_done(&self, whole: bool);

    /// Answers the message of these lines. Its text is for the client.
    fn answer(
        &self,
        pass: &mut Self::Pass,
        alloc: Global,
        lines: &[u8],
    ) -> Result<Vec<u8>, AnswerFault>
        requires ready { ready self.now pass.old }
        requires message { AreOfMessage (lines_of lines.now) }
        requires few { length lines.now ≤ LONGEST_MESSAGE }
        ensures ready { ready self.now pass.new }
        ensures seen { SeenGoesOn (legal self.now) (seen pass.old) (seen pass.new) }
        ensures ok { IfOk result (λ text. (entries : List Self.Entry)
            × (own pass.new ≡ own pass.old ++ entries)
            × answers (about self.now) (lines_of lines.now) entries text.items) }
        ensures err { IfErr result (λ fault. (entries : List Self.Entry)
            × (own pass.new ≡ own pass.old ++ entries)
            × begins (about self.now) fault (lines_of lines.now) entries) }
        ensures stopped { IfErr result (λ fault. stopped self.now pass.new fault) };
}
