// The numbers of a reply written into lent bytes from a position on.
ghost use Rattle.std.specs.Prelude.{[], ◌∷◌, ◌+◌, ◌≤◌, length};
ghost use Rattle.lines.specs.Decimal.{decimal_digits};
ghost use Rattle.lines.specs.Writing.{reply_text, Written};

use crate::page::Page;

// In decimal, without leading zeros: the digits before the last first. Answers where it ends. It hands the place on to
// itself as a number: a page that it handed on would lie in memory, and each byte take longer.
pub fn write_number(out: &mut [u8], at: usize, n: u32) -> usize
    requires { at + length (decimal_digits n) ≤ length out.old }
    ensures { Written out.old out.new at (decimal_digits n) result }
{
    if n < 10 {
        out[at] = b'0' + n as u8;
        return at + 1;
    }
    let end = write_number(out, at, n / 10);
    out[end] = b'0' + (n % 10) as u8;
    end + 1
}

// The four numbers with single spaces and a line feed. Answers where they end. Both functions are public, and stay
// beside the page's own.
pub fn write_reply(
    out: &mut [u8],
    at: usize,
    first: u32,
    second: u32,
    third: u32,
    fourth: u32,
) -> usize
    requires { at + 44 ≤ length out.old }
    ensures written { Written out.old out.new at
        (reply_text (first ∷ second ∷ third ∷ fourth ∷ [])) result }
    ensures upper_bound { result ≤ at + 44 }
{
    let mut page = Page {
        bytes: out,
        end: at,
    };
    page.write_reply(first, second, third, fourth);
    page.end
}
