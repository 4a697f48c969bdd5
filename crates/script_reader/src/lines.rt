//! The lines of a script one at a time, and what is asked of each. Where a
//! statement begins is in `opening`.
ghost use Rattle.std.specs.Prelude.{◌≡◌, ◌∷◌, ◌<◌, ◌≤◌, ◌==◌, [], false, length, take, drop, IfNone, IfSome};
ghost use Rattle.std.specs.List.{position_or_len, prefix_len};
ghost use Rattle.script_reader.specs.Open.{FirstLine, NoLine};
ghost use Rattle.script_reader.specs.Script.{is_ended, whole_lines, without_last, line_text, is_blank, without_blanks, is_no_statement, is_word_byte, first_word, has_block, is_dot_line};
ghost use Rattle.script_reader.specs.Coming.{StaysLine};

/// The bytes in front of the first line feed, or all bytes where there is none.
fn bytes_to_line_feed(bytes: &[u8]) -> usize
    ensures { result ≡ position_or_len (λ byte. byte == 10) bytes.now }
{
    bytes.iter().take_while(|byte| **byte != b'\n').count()
}

/// The bytes in front of the first line feed, or all bytes where there is none. In so
/// many of them none stands.
fn bytes_to_line_feed_from(bytes: &[u8], sought: usize) -> usize
    requires within { sought ≤ length bytes.now }
    requires none { is_ended (take sought bytes.now) ≡ false }
    ensures { result ≡ position_or_len (λ byte. byte == 10) bytes.now }
{
    sought + bytes_to_line_feed(bytes.split_at(sought).1)
}

/// The length of the first line that has come, with its line feed. In so many
/// bytes there is no line feed.
pub(crate) fn line_len_from(bytes: &[u8], sought: usize, ended: bool) -> Option<usize>
    requires within { sought ≤ length bytes.now }
    requires none { is_ended (take sought bytes.now) ≡ false }
    ensures some { IfSome result (FirstLine ended bytes.now) }
    ensures within { IfSome result (λ n. (0 < n) × (n ≤ length bytes.now)) }
    ensures none { IfNone result (NoLine ended bytes.now) }
{
    let feed = bytes_to_line_feed_from(bytes, sought);
    if feed < bytes.len() {
        Some(feed + 1)
    } else if ended && feed > 0 {
        Some(feed)
    } else {
        None
    }
}

/// The length of the first line that has come, with its line feed.
pub fn first_line_len(script: &[u8], ended: bool) -> Option<usize>
    ensures none { IfNone result (whole_lines ended script.now ≡ []) }
    ensures some { IfSome result (λ n.
        whole_lines ended script.now ≡ take n script.now ∷ whole_lines ended (drop n script.now)) }
    ensures within { IfSome result (λ n. (0 < n) × (n ≤ length script.now)) }
    ensures stays { IfSome result (StaysLine ended script.now) }
{
    let feed = bytes_to_line_feed(script);
    if feed < script.len() {
        Some(feed + 1)
    } else if ended && feed > 0 {
        Some(feed)
    } else {
        None
    }
}

fn without_last(byte: u8, bytes: &[u8]) -> &[u8]
    ensures { result.now ≡ without_last byte bytes.now }
{
    if bytes.ends_with(&[byte]) {
        &bytes[..bytes.len() - 1]
    } else {
        bytes
    }
}

/// A line without its line feed, and then without one carriage return at its end.
pub fn line_text(line: &[u8]) -> &[u8]
    ensures { result.now ≡ line_text line.now }
{
    without_last(b'\r', without_last(b'\n', line))
}

/// The first bytes, as many as the limit at most.
pub(crate) fn within(bytes: &[u8], limit: usize) -> &[u8]
    ensures { result.now ≡ take limit bytes.now }
{
    if bytes.len() <= limit {
        bytes
    } else {
        bytes.split_at(limit).0
    }
}

fn blanks_in_front(text: &[u8]) -> usize
    ensures len { result ≡ prefix_len is_blank text.now }
    ensures within { result ≤ length text.now }
{
    text.iter()
        .take_while(|byte| **byte == b' ' || **byte == b'\t')
        .count()
}

pub(crate) fn without_blanks(text: &[u8]) -> &[u8]
    ensures { result.now ≡ without_blanks text.now }
{
    let blanks = blanks_in_front(text);
    &text[blanks..]
}

/// The text is blank or a comment.
pub fn is_no_statement(text: &[u8]) -> bool
    ensures { result ≡ is_no_statement text.now }
{
    let rest = without_blanks(text);
    rest.is_empty() || rest.starts_with(b"--")
}

fn word_bytes_in_front(text: &[u8]) -> usize
    ensures { result ≡ prefix_len is_word_byte text.now }
{
    text.iter()
        .take_while(|byte| byte.is_ascii_alphanumeric() || **byte == b'_')
        .count()
}

fn first_word(text: &[u8]) -> &[u8]
    ensures { result.now ≡ first_word text.now }
{
    let rest = without_blanks(text);
    let len = word_bytes_in_front(rest);
    &rest[..len]
}

/// The first word is `load`.
pub fn has_block(text: &[u8]) -> bool
    ensures { result ≡ has_block text.now }
{
    first_word(text).eq_ignore_ascii_case(b"load")
}

/// The line closes a block.
pub fn is_dot_line(line: &[u8]) -> bool
    ensures { result ≡ is_dot_line line.now }
{
    line_text(line) == b".".as_slice()
}
