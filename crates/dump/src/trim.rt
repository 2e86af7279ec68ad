// Taking the blanks at the two ends of a line away.
ghost use Rattle.std.specs.Prelude.{◌≡◌, ◌≤◌, length};
ghost use Rattle.std.specs.List.{prefix_len, suffix_len};
ghost use Rattle.dump.specs.Trim.{blank, trimmed};

fn is_blank(c: u8) -> bool
    ensures { result ≡ blank c }
{
    c == b' ' || c == b'\r'
}

fn blanks_at_front(text: &[u8]) -> usize
    ensures value { result ≡ prefix_len blank text.now }
    ensures bound { result ≤ length text.now }
{
    text.iter().take_while(|c| is_blank(**c)).count()
}

fn blanks_at_end(text: &[u8]) -> usize
    ensures value { result ≡ suffix_len blank text.now }
    ensures bound { result ≤ length text.now }
{
    text.iter().rev().take_while(|c| is_blank(**c)).count()
}

// The line without the blanks at its two ends.
pub(crate) fn trim(line: &[u8]) -> &[u8]
    ensures { result.now ≡ trimmed line.now }
{
    let text = &line[blanks_at_front(line)..];
    &text[..text.len() - blanks_at_end(text)]
}
