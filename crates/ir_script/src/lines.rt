//! Lines of a script.
ghost use Rattle.std.specs.Prelude.{◌≤◌, length};
ghost use Rattle.ir_script.specs.Lines.{IsNextLine};

/// Where the line ends that starts at a place: at the next byte 10, or else at the script's end.
pub(crate) fn line_end(script: &[u8], start: usize) -> usize
    requires { start ≤ length script.now }
    ensures { IsNextLine script.now start result }
{
    let mut end = start;
    while end < script.len() && script[end] != b'\n' {
        end += 1;
    }
    end
}

#[cfg(test)]
mod tests {
    use super::*;

    #[test]
    fn lines_end_at_byte_10_or_at_the_end(rt: HostRuntime) {
        let script = b"ab\n\nc";
        assert_eq!(rt; line_end(script, 0), 2);
        assert_eq!(rt; line_end(script, 3), 3);
        assert_eq!(rt; line_end(script, 4), 5);
        assert_eq!(rt; line_end(script, 5), 5);
    }
}
