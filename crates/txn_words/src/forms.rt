//! What each kind of line looks like, as a table of words.
#![tactic(auto, using(crate::proofs::Adding::nothing_added, crate::proofs::Adding::further))]

/// What a line is for.
#[derive(Clone, Copy, PartialEq, Eq)]
pub enum Use {
    Call,
    /// An event whose second word is a ticket.
    Serve,
    Answer,
    Deliver,
    Lose,
    Busy,
    Wake,
    /// Any other event.
    World,
}

/// A kind of line.
#[derive(Clone, Copy)]
pub struct Form {
    /// Its first word.
    pub word: &'static [u8],
    pub is_for: Use,
    /// How it is written.
    pub written: &'static [u8],
    /// What its number is, where it names a line.
    pub names: &'static [u8],
    /// Why a line of it is skipped.
    pub skipped: &'static [u8],
    /// Whether keys or values stand on it.
    pub has_keys: bool,
}

const CLIENT_GONE: &[u8] = b"its client has crashed";

const NO_CALL: &[u8] =
    b"its client has crashed, its transaction is not begun, or a call of it is open";

const TO_CLIENT: &[u8] = b"CLIENT is the number of an earlier line client";

const TO_BEGIN: &[u8] = b"TRANSACTION is the number of an earlier line begin";

const FORMS: [Form; 20] = [
    Form {
        word: b"client",
        is_for: Use::Call,
        written: b"client",
        names: TO_CLIENT,
        skipped: CLIENT_GONE,
        has_keys: false,
    },
    Form {
        word: b"begin",
        is_for: Use::Call,
        written: b"begin CLIENT opt [nolocks] [noregions]",
        names: TO_CLIENT,
        skipped: CLIENT_GONE,
        has_keys: false,
    },
    Form {
        word: b"timestamp",
        is_for: Use::Call,
        written: b"timestamp CLIENT",
        names: TO_CLIENT,
        skipped: CLIENT_GONE,
        has_keys: false,
    },
    Form {
        word: b"put",
        is_for: Use::Call,
        written: b"put TRANSACTION KEY VALUE",
        names: TO_BEGIN,
        skipped: NO_CALL,
        has_keys: true,
    },
    Form {
        word: b"insert",
        is_for: Use::Call,
        written: b"insert TRANSACTION KEY VALUE",
        names: TO_BEGIN,
        skipped: NO_CALL,
        has_keys: true,
    },
    Form {
        word: b"delete",
        is_for: Use::Call,
        written: b"delete TRANSACTION KEY",
        names: TO_BEGIN,
        skipped: NO_CALL,
        has_keys: true,
    },
    Form {
        word: b"mutate",
        is_for: Use::Call,
        written: b"mutate TRANSACTION, then one or more of put KEY VALUE, insert KEY VALUE, del KEY, lock KEY, check KEY",
        names: TO_BEGIN,
        skipped: NO_CALL,
        has_keys: true,
    },
    Form {
        word: b"lock",
        is_for: Use::Call,
        written: b"lock TRANSACTION KEY, then perhaps more keys",
        names: TO_BEGIN,
        skipped: NO_CALL,
        has_keys: true,
    },
    Form {
        word: b"commit",
        is_for: Use::Call,
        written: b"commit TRANSACTION",
        names: TO_BEGIN,
        skipped: NO_CALL,
        has_keys: false,
    },
    Form {
        word: b"rollback",
        is_for: Use::Call,
        written: b"rollback TRANSACTION",
        names: TO_BEGIN,
        skipped: NO_CALL,
        has_keys: false,
    },
    Form {
        word: b"serve",
        is_for: Use::Serve,
        written: b"serve LINE.NUMBER, or serve LINE.hNUMBER for a heartbeat",
        names: TO_CLIENT,
        skipped: b"it was served or refused before",
        has_keys: false,
    },
    Form {
        word: b"answer",
        is_for: Use::Answer,
        written: b"answer LINE.NUMBER, or answer LINE.hNUMBER for a heartbeat",
        names: TO_CLIENT,
        skipped: b"no reply is kept, or it is not out any more",
        has_keys: false,
    },
    Form {
        word: b"deliver",
        is_for: Use::Deliver,
        written: b"deliver LINE.NUMBER, or deliver LINE.hNUMBER for a heartbeat",
        names: TO_CLIENT,
        skipped: b"it was served before, or is not out any more",
        has_keys: false,
    },
    Form {
        word: b"lose",
        is_for: Use::Lose,
        written: b"lose LINE.NUMBER, or lose LINE.hNUMBER for a heartbeat",
        names: TO_CLIENT,
        skipped: b"it is not out any more",
        has_keys: false,
    },
    Form {
        word: b"busy",
        is_for: Use::Busy,
        written: b"busy LINE.NUMBER, or busy LINE.hNUMBER for a heartbeat",
        names: TO_CLIENT,
        skipped: b"it was served before, is not out any more, or goes to no store",
        has_keys: false,
    },
    Form {
        word: b"wake",
        is_for: Use::Wake,
        written: b"wake LINE.NUMBER, or wake LINE.hNUMBER for a heartbeat",
        names: TO_CLIENT,
        skipped: b"it has ended",
        has_keys: false,
    },
    Form {
        word: b"split",
        is_for: Use::World,
        written: b"split KEY",
        names: TO_CLIENT,
        skipped: b"a region begins there already",
        has_keys: true,
    },
    Form {
        word: b"lead",
        is_for: Use::World,
        written: b"lead REGION STORE, where STORE is 1, 2 or 3",
        names: TO_CLIENT,
        skipped: b"there is no such region",
        has_keys: false,
    },
    Form {
        word: b"clock",
        is_for: Use::World,
        written: b"clock MILLISECONDS",
        names: TO_CLIENT,
        skipped: b"it does nothing",
        has_keys: false,
    },
    Form {
        word: b"crash",
        is_for: Use::World,
        written: b"crash CLIENT",
        names: TO_CLIENT,
        skipped: b"the client has crashed before",
        has_keys: false,
    },
];

fn is_alike(first: &[u8], second: &[u8]) -> bool {
    first.len() == second.len()
        && first
            .iter()
            .zip(second)
            .all(|(a, b)| a.eq_ignore_ascii_case(b))
}

/// The kind of line that begins with this word, in whatever case.
pub fn form_like(word: &[u8]) -> Option<Form> {
    for form in FORMS {
        if is_alike(form.word, word) {
            return Some(form);
        }
    }
    None
}

/// The kind of line that begins with this word.
pub fn form_of(word: &[u8]) -> Option<Form> {
    let form = form_like(word)?;
    if form.word == word { Some(form) } else { None }
}
