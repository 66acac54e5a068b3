//! What a line asks for, by the words before its terms.
ghost use Rattle.ir_laws.specs.Expression.{expr_list, tokens_of};
ghost use Rattle.ir_laws.specs.Form.{form_of};
ghost use Rattle.ir_laws.specs.Phrase.{Phrase as PhraseRead, and_then};
ghost use Rattle.ir_syntax.specs.Commands.{asked_form, commands, form_asked, form_row, term_count, whole};
ghost use Rattle.std.specs.Prelude.{◌≡◌, List, length, bytes_eq, find, IfSome, IsSome};

use crate::expression::is_readable;
use crate::tokens::{Token, first_token};
use crate::words::name_of;

/// A form, by the word that begins it.
#[derive(Clone, Copy, PartialEq, Eq, Debug)]
enum Command {
    Let,
    Print,
    Same,
    Flags,
}

/// The forms that the grammar knows so far.
const COMMANDS: [Command; 4] = [Command::Let, Command::Print, Command::Same, Command::Flags];

impl Command {
    /// How it is written, and how many terms end it.
    fn row(self) -> (&'static [u8], usize)
        ensures text { result.0.now ≡ (form_row self).text }
        ensures terms { result.1 ≡ term_count self }
    {
        match self {
            Command::Let => (b"let", 1),
            Command::Print => (b"print", 1),
            Command::Same => (b"same", 2),
            Command::Flags => (b"flags", 1),
        }
    }

    fn text(self) -> &'static [u8]
        ensures { result.now ≡ (form_row self).text }
    {
        self.row().0
    }

    /// How many terms its line ends with.
    fn terms(self) -> usize
        ensures { result ≡ term_count self }
    {
        self.row().1
    }
}

/// The form that this word begins.
fn command_of(word: &[u8]) -> Option<Command>
    ensures { result ≡ find (λ command. bytes_eq (form_row command).text word.now) commands }
{
    COMMANDS
        .iter()
        .copied()
        .find(|command| command.text() == word)
}

/// What a line asks for. Its terms are in the steps.
#[derive(Clone, Copy)]
pub enum Asked<'a> {
    /// Nothing: the line holds no token.
    Blank,
    /// A name for the term.
    Let(&'a [u8]),
    /// The spelling of the term.
    Print,
    /// Whether the two terms are the same.
    Same,
    /// The flags of the term.
    Flags,
}

/// What a line asks for by its command, how many terms it has, and the text that holds these.
fn asked_by<'a>(command: Command, text: &'a [u8]) -> Option<(Asked<'a>, usize, &'a [u8])>
    ensures form { and_then (whole (tokens_of text.entry.now)) (λ es. (form_row command).read (expr_list es)) ≡ form_asked result }
    ensures count { IfSome result (λ asked. (ps : List PhraseRead) → length ps ≡ asked.1 → IsSome (asked_form asked.0 ps)) }
{
    let count = command.terms();
    match command {
        Command::Let => match first_token(text) {
            Some((Token::Word(word), rest)) => Some((Asked::Let(name_of(word)?), count, rest)),
            Some((Token::Opens | Token::Closes, _)) | None => None,
        },
        Command::Print => Some((Asked::Print, count, text)),
        Command::Same => Some((Asked::Same, count, text)),
        Command::Flags => Some((Asked::Flags, count, text)),
    }
}

/// The same of a whole line.
pub(crate) fn asked_of<'a>(line: &'a [u8]) -> Option<(Asked<'a>, usize, &'a [u8])>
    ensures form { form_of line.entry.now ≡ form_asked result }
    ensures count { IfSome result (λ asked. (ps : List PhraseRead) → length ps ≡ asked.1 → IsSome (asked_form asked.0 ps)) }
{
    if !is_readable(line) {
        return None;
    }
    let Some((token, rest)) = first_token(line) else {
        return Some((Asked::Blank, 0, b""));
    };
    let Token::Word(word) = token else {
        return None;
    };
    asked_by(command_of(word)?, rest)
}
