//! What is told of each command that came at the door of a site: which it was and its status, and nothing else of it, since its
//! other words may be keys.

use command_table::{COMMANDS, CommandName};

/// The most bytes of a command that are looked at: how long its input is, and its first two words.
const MOST_LOOKED: usize = 64;

/// What is told of the links of a site's operator as they end: of each the first two words of its command, where a command of the
/// program has these, and its status. The words are those of the table of commands: of what came nothing is kept for long, and
/// nothing is shown.
#[derive(Drop)]
pub struct DoorLog {
    // whether the link that stands is the operator's
    stands: bool,
    // the front of what came on it
    front: [u8; MOST_LOOKED],
    length: usize,
    // the status that was answered
    status: Option<u8>,
}

impl DoorLog {
    /// No link stands.
    pub fn new() -> DoorLog {
        DoorLog {
            stands: false,
            front: [0; MOST_LOOKED],
            length: 0,
            status: None,
        }
    }

    /// The operator's next link stands.
    pub fn begin(&mut self) {
        self.stands = true;
        self.length = 0;
        self.status = None;
    }

    /// These bytes came on the link that stands.
    pub fn hear(&mut self, bytes: &[u8]) {
        if !self.stands {
            return;
        }
        let Some(room) = self.front.get_mut(self.length..) else {
            return;
        };
        let n = room.len().min(bytes.len());
        room[..n].copy_from_slice(&bytes[..n]);
        self.length = self.length.saturating_add(n);
    }

    /// These bytes are sent on it, of which the first have the status.
    pub fn answer(&mut self, bytes: &[u8]) {
        if self.stands && self.status.is_none() {
            self.status = status_of(bytes);
        }
    }

    /// The link that stands ends, and what it brought is told.
    pub fn end(&mut self, rt: &impl Eprint) {
        if self.stands {
            self.stands = false;
            let front = self.front.get(..self.length).unwrap_or(&[]);
            tell_command(rt, command_of(front), self.status);
        }
    }
}

/// Tells of a command, or of bytes that begin none, and how it ended.
fn tell_command(rt: &impl Eprint, command: Option<CommandName>, status: Option<u8>) {
    let (role, blank, name) = match command {
        Some(command) => (command.role(), " ", command.name()),
        None => ("bad words", "", ""),
    };
    let _ = match status {
        Some(status) => eprintln!(rt; "door: {role}{blank}{name}: {status}"),
        None => eprintln!(rt; "door: {role}{blank}{name}: no answer"),
    };
}

/// The command whose role and name are the first two words of what came at a door, behind the length of its input.
fn command_of(front: &[u8]) -> Option<CommandName> {
    let (_, words) = split_at(front, b" ")?;
    let (role, words) = split_at(words, b" ")?;
    let (name, _) = split_at(words, b" \n")?;
    for command in &COMMANDS {
        if role == command.role().as_bytes() && name == command.name().as_bytes() {
            return Some(*command);
        }
    }
    None
}

/// What is before the first of these bytes, and what is behind it.
fn split_at<'a>(bytes: &'a [u8], ends: &[u8]) -> Option<(&'a [u8], &'a [u8])> {
    let at = bytes.iter().position(|b| ends.contains(b))?;
    Some((bytes.get(..at)?, bytes.get(at.saturating_add(1)..)?))
}

/// The status that an answer begins with.
fn status_of(answer: &[u8]) -> Option<u8> {
    match answer {
        [digit @ b'0'..=b'9', b' ', ..] => Some(*digit - b'0'),
        _ => None,
    }
}
