//! Parsing the lines of a batch file.
ghost use Rattle.std.specs.Prelude.{◌≡◌, Some, IfOk, OnErr, is_some, true};
ghost use Rattle.bwsh.specs.Token.{token_bytes};
ghost use Rattle.bwsh.specs.Words.{words_of};
ghost use Rattle.bwsh.specs.BatchFile.{IsReadAs};
ghost use Rattle.bwsh.specs.Line.{only_key, key_and_value, bound_of, range_and_limit, parse_scan, parse_wipe, if_alone, parse_back, parse_by, parse_copy, parse_dot, parse_order, parse_other, parse_prefix, parse_tidy, parse_command, parse_long, parse_line, why_text};

use crate::number::number_in;
use crate::order::Order;
use crate::token::unescape;
use crate::words::{first_word, only_word, three_words, two_words};
use keys::{Command, Key, Value};
use std::alloc::{AllocError, Global};
use std::fmt;

/// Why a line is bad. `Display` writes the error message.
#[derive(Clone, Copy, Debug, PartialEq, Eq)]
pub enum Why {
    /// The first word is not a command.
    UnknownCommand,
    /// The number of words is wrong for the command.
    WordCount,
    /// A word is not a valid token, so it encodes no byte string.
    BadToken,
    /// A word that should be a number is not one.
    BadNumber,
    /// The line of a stream has more than 16,384 bytes, and is no comment.
    TooLong,
    /// With this line, the scans of the batch ask for more rows than `--max-rows` allows.
    TooManyRows,
}

impl fmt::Display for Why {
    ghost output = { λ why. Some (why_text why) };

    fn fmt<W: fmt::Write>(&self, f: &mut fmt::Formatter<W>) -> fmt::Result {
        f.write_str(match self {
            Why::UnknownCommand => "unknown command",
            Why::WordCount => "wrong number of words",
            Why::BadToken => "bad token",
            Why::BadNumber => "bad number",
            Why::TooLong => "line too long",
            Why::TooManyRows => "too many rows",
        })
    }
}

/// How many bytes a line of a stream may have, unless it is a comment. More are not parsed, so that
/// a stream need not keep them.
pub const MOST_BYTES: usize = 16_384;

// A lower bound, an upper bound and a limit.
type Range = (Key<Global>, Option<Key<Global>>, u32);

/// A parsed line.
#[derive(Drop)]
pub enum Line {
    /// A line without words, or a comment.
    Blank,
    /// A command. It is pending until a later line or the end of the input runs the batch.
    Command(Command<Global>),
    /// Run the pending commands as one batch.
    Go,
    /// Run the pending commands, if there are any, and then this order.
    Order(Order),
    /// A line that cannot be parsed, and why.
    Bad(Why),
    /// A line for which an allocation failed.
    Lost,
}

/// Parses lines, with one reused buffer for decoded words.
#[derive(Drop)]
pub struct LineReader {
    alloc: Global,
    bytes: Vec<u8>,
}

impl LineReader {
    /// Creates a reader without allocating.
    pub fn new(alloc: Global) -> Self {
        LineReader {
            alloc,
            bytes: Vec::new(alloc),
        }
    }

    fn key(&mut self, token: &[u8]) -> Result<Option<Key<Global>>, AllocError>
        ensures { IfOk result (λ key. key ≡ token_bytes token.now) }
    {
        if !unescape(token, &mut self.bytes)? {
            return Ok(None);
        }
        Ok(Some(Key::from_bytes(self.alloc, &self.bytes)?))
    }

    fn value(&mut self, token: &[u8]) -> Result<Option<Value<Global>>, AllocError>
        ensures { IfOk result (λ value. value ≡ token_bytes token.now) }
    {
        if !unescape(token, &mut self.bytes)? {
            return Ok(None);
        }
        Ok(Some(Value::from_bytes(self.alloc, &self.bytes)?))
    }

    fn only_key(&mut self, words: &[u8]) -> Result<Result<Key<Global>, Why>, AllocError>
        ensures { IfOk result (λ key. key ≡ only_key (words_of words.now)) }
    {
        let Some(token) = only_word(words) else {
            return Ok(Err(Why::WordCount));
        };
        Ok(self.key(token)?.ok_or(Why::BadToken))
    }

    fn key_and_value(
        &mut self,
        words: &[u8],
    ) -> Result<Result<(Key<Global>, Value<Global>), Why>, AllocError>
        ensures { IfOk result (λ pair. pair ≡ key_and_value (words_of words.now)) }
    {
        let Some((key, value)) = two_words(words) else {
            return Ok(Err(Why::WordCount));
        };
        let Some(key) = self.key(key)? else {
            return Ok(Err(Why::BadToken));
        };
        let Some(value) = self.value(value)? else {
            return Ok(Err(Why::BadToken));
        };
        Ok(Ok((key, value)))
    }

    // Parses an upper bound: a key, or `*` for none.
    fn bound(&mut self, token: &[u8]) -> Result<Option<Option<Key<Global>>>, AllocError>
        ensures { IfOk result (λ bound. bound ≡ bound_of token.now) }
    {
        if token == b"*".as_slice() {
            return Ok(Some(None));
        }
        Ok(self.key(token)?.map(Some))
    }

    // Parses `LO HI LIMIT`.
    fn range(&mut self, words: &[u8]) -> Result<Result<Range, Why>, AllocError>
        ensures { IfOk result (λ range. range ≡ range_and_limit (words_of words.now)) }
    {
        let Some((lo, hi, limit)) = three_words(words) else {
            return Ok(Err(Why::WordCount));
        };
        let Some(lo) = self.key(lo)? else {
            return Ok(Err(Why::BadToken));
        };
        let Some(hi) = self.bound(hi)? else {
            return Ok(Err(Why::BadToken));
        };
        let Some(limit) = number_in(limit) else {
            return Ok(Err(Why::BadNumber));
        };
        Ok(Ok((lo, hi, limit)))
    }

    fn scan(&mut self, words: &[u8]) -> Result<Line, AllocError>
        ensures { IfOk result (λ parsed. parsed ≡ parse_scan (words_of words.now)) }
    {
        Ok(match self.range(words)? {
            Ok((lo, hi, limit)) => Line::Command(Command::Scan(lo, hi, limit)),
            Err(why) => Line::Bad(why),
        })
    }

    fn wipe(&mut self, words: &[u8]) -> Result<Line, AllocError>
        ensures { IfOk result (λ parsed. parsed ≡ parse_wipe (words_of words.now)) }
    {
        let Some((lo, hi)) = two_words(words) else {
            return Ok(Line::Bad(Why::WordCount));
        };
        let Some(lo) = self.key(lo)? else {
            return Ok(Line::Bad(Why::BadToken));
        };
        let Some(hi) = self.bound(hi)? else {
            return Ok(Line::Bad(Why::BadToken));
        };
        Ok(Line::Command(Command::Wipe(lo, hi)))
    }

    // Parses a line that begins with the word of a command. Returns `None` for another word.
    fn command(&mut self, word: &[u8], words: &[u8]) -> Result<Option<Line>, AllocError>
        ensures parsed { IfOk result (λ parsed.
            parsed ≡ parse_command word.now (words_of words.now)) }
        ensures lost { OnErr result
            (is_some (parse_command word.now (words_of words.now)) ≡ true) }
    {
        if word == b"put".as_slice() {
            return Ok(Some(match self.key_and_value(words)? {
                Ok((key, value)) => Line::Command(Command::Put(key, value)),
                Err(why) => Line::Bad(why),
            }));
        }
        if word == b"add".as_slice() {
            return Ok(Some(match self.key_and_value(words)? {
                Ok((key, value)) => Line::Command(Command::Add(key, value)),
                Err(why) => Line::Bad(why),
            }));
        }
        if word == b"get".as_slice() {
            return Ok(Some(match self.only_key(words)? {
                Ok(key) => Line::Command(Command::Get(key)),
                Err(why) => Line::Bad(why),
            }));
        }
        if word == b"del".as_slice() {
            return Ok(Some(match self.only_key(words)? {
                Ok(key) => Line::Command(Command::Del(key)),
                Err(why) => Line::Bad(why),
            }));
        }
        if word == b"scan".as_slice() {
            return Ok(Some(self.scan(words)?));
        }
        if word == b"wipe".as_slice() {
            return Ok(Some(self.wipe(words)?));
        }
        Ok(None)
    }

    // Parses `.copy PATH [SEGMENTS]`.
    fn try_copy(&mut self, words: &[u8]) -> Result<Line, AllocError>
        ensures { IfOk result (λ parsed. parsed ≡ parse_copy (words_of words.now)) }
    {
        if let Some(path) = only_word(words) {
            return Ok(match self.key(path)? {
                Some(path) => Line::Order(Order::Copy {
                    path,
                    segments: None,
                }),
                None => Line::Bad(Why::BadToken),
            });
        }
        let Some((path, segments)) = two_words(words) else {
            return Ok(Line::Bad(Why::WordCount));
        };
        let Some(path) = self.key(path)? else {
            return Ok(Line::Bad(Why::BadToken));
        };
        let Some(segments) = number_in(segments) else {
            return Ok(Line::Bad(Why::BadNumber));
        };
        Ok(Line::Order(Order::Copy {
            path,
            segments: Some(segments),
        }))
    }

    // Parses `.back LO HI LIMIT`.
    fn try_back(&mut self, words: &[u8]) -> Result<Line, AllocError>
        ensures { IfOk result (λ parsed. parsed ≡ parse_back (words_of words.now)) }
    {
        Ok(match self.range(words)? {
            Ok((lo, hi, limit)) => Line::Order(Order::Back(lo, hi, limit)),
            Err(why) => Line::Bad(why),
        })
    }

    // Parses `.prefix BYTES LIMIT`.
    fn try_prefix(&mut self, words: &[u8]) -> Result<Line, AllocError>
        ensures { IfOk result (λ parsed. parsed ≡ parse_prefix (words_of words.now)) }
    {
        let Some((bytes, limit)) = two_words(words) else {
            return Ok(Line::Bad(Why::WordCount));
        };
        let Some(bytes) = self.key(bytes)? else {
            return Ok(Line::Bad(Why::BadToken));
        };
        let Some(limit) = number_in(limit) else {
            return Ok(Line::Bad(Why::BadNumber));
        };
        Ok(Line::Order(Order::Prefix(bytes, limit)))
    }

    fn copy(&mut self, words: &[u8]) -> Line
        ensures { IsReadAs true (parse_copy (words_of words.now)) result }
    {
        self.try_copy(words).unwrap_or(Line::Order(Order::Lost))
    }

    fn back(&mut self, words: &[u8]) -> Line
        ensures { IsReadAs true (parse_back (words_of words.now)) result }
    {
        self.try_back(words).unwrap_or(Line::Order(Order::Lost))
    }

    fn prefix(&mut self, words: &[u8]) -> Line
        ensures { IsReadAs true (parse_prefix (words_of words.now)) result }
    {
        self.try_prefix(words).unwrap_or(Line::Order(Order::Lost))
    }

    // Parses a line that begins with a dot. If an allocation fails, it is an order that is refused,
    // so that it still ends a batch and is answered.
    fn dot(&mut self, word: &[u8], words: &[u8]) -> Line
        ensures { IsReadAs true (parse_dot word.now (words_of words.now)) result }
    {
        if word == b".stat".as_slice() {
            return if_alone(Line::Order(Order::Stat), words);
        }
        if word == b".help".as_slice() {
            return if_alone(Line::Order(Order::Help), words);
        }
        if word == b".tidy".as_slice() {
            return tidy(words);
        }
        if word == b".copy".as_slice() {
            return self.copy(words);
        }
        if word == b".back".as_slice() {
            return self.back(words);
        }
        if word == b".prefix".as_slice() {
            return self.prefix(words);
        }
        Line::Bad(Why::UnknownCommand)
    }

    // Parses a line that begins with another word than that of a command.
    fn other(&mut self, word: &[u8], words: &[u8], has_dots: bool) -> Line
        ensures { IsReadAs has_dots (parse_other has_dots word.now (words_of words.now)) result }
    {
        if has_dots && word.starts_with(b".") {
            return self.dot(word, words);
        }
        order(word, words)
    }

    fn by_word(&mut self, word: &[u8], words: &[u8], has_dots: bool) -> Line
        ensures { IsReadAs has_dots (parse_by has_dots word.now (words_of words.now)) result }
    {
        match self.command(word, words) {
            Ok(Some(line)) => line,
            Ok(None) => self.other(word, words, has_dots),
            Err(_) => Line::Lost,
        }
    }

    /// Parses a line. Lines that begin with a dot are orders if `has_dots`, as in a stream. If an
    /// allocation fails, a command is `Line::Lost`, and a line that ends a batch is `Order::Lost`.
    pub fn read(&mut self, line: &[u8], has_dots: bool) -> Line
        ensures { IsReadAs has_dots (parse_line has_dots line.now) result }
    {
        if has_dots && line.len() > MOST_BYTES {
            return long_line(&line[..MOST_BYTES]);
        }
        let Some((word, words)) = first_word(line) else {
            return Line::Blank;
        };
        if word.starts_with(b"#") {
            return Line::Blank;
        }
        self.by_word(word, words, has_dots)
    }
}

// Parses a line that is too long for a stream and begins with `front`.
fn long_line(front: &[u8]) -> Line
    ensures { result ≡ parse_long (words_of front.now) }
{
    match first_word(front) {
        Some((word, _)) if word.starts_with(b"#") => Line::Blank,
        _ => Line::Bad(Why::TooLong),
    }
}

// Parses `.tidy N`.
fn tidy(words: &[u8]) -> Line
    ensures { result ≡ parse_tidy (words_of words.now) }
{
    match only_word(words) {
        None => Line::Bad(Why::WordCount),
        Some(word) => match number_in(word) {
            Some(most) => Line::Order(Order::Tidy(most)),
            None => Line::Bad(Why::BadNumber),
        },
    }
}

fn order(word: &[u8], words: &[u8]) -> Line
    ensures { result ≡ parse_order word.now (words_of words.now) }
{
    if word == b"go".as_slice() {
        return if_alone(Line::Go, words);
    }
    if word == b"flush".as_slice() {
        return if_alone(Line::Order(Order::Flush), words);
    }
    if word == b"clean".as_slice() {
        return if_alone(Line::Order(Order::Clean), words);
    }
    if word == b"upgrade".as_slice() {
        return if_alone(Line::Order(Order::Upgrade), words);
    }
    if word == b"verify".as_slice() {
        return if_alone(Line::Order(Order::Verify), words);
    }
    Line::Bad(Why::UnknownCommand)
}

// Returns the line if no words follow its first one.
fn if_alone(parsed: Line, words: &[u8]) -> Line
    ensures { result ≡ if_alone parsed (words_of words.now) }
{
    match first_word(words) {
        None => parsed,
        Some(_) => {
            drop(parsed);
            Line::Bad(Why::WordCount)
        }
    }
}
