// The lines of a text.
ghost use Rattle.std.specs.Prelude.{◌≡◌, ◌≤◌, length, take, drop};
ghost use Rattle.std.specs.List.{take_while};
ghost use Rattle.tal_syntax.specs.Lines.{not_lf, without_cr, CutIs};

// How many bytes stand before the first LF.
fn line_length(bytes: &[u8]) -> usize
    ensures count { result ≡ length (take_while not_lf bytes.now) }
    ensures within { result ≤ length bytes.now }
{
    bytes.iter().take_while(|byte| **byte != b'\n').count()
}

// A line without the CR at its end.
fn trim(line: &[u8]) -> &[u8]
    ensures { result.now ≡ without_cr line.now }
{
    if line.len() > 0 && line[line.len() - 1] == b'\r' {
        &line[..line.len() - 1]
    } else {
        line
    }
}

/// The first line of a text, and what stands behind its LF. The last line has none.
pub fn cut_line(bytes: &[u8]) -> (&[u8], Option<&[u8]>)
    ensures cut { CutIs bytes.now result.0.now result.1 }
    ensures short { length result.0.now ≤ length bytes.now }
{
    let (line, rest) = bytes.split_at(line_length(bytes));
    if rest.len() == 0 {
        return (line, None);
    }
    let (_, more) = rest.split_at(1);
    (trim(line), Some(more))
}
