//! Printing: items in the columns of lines.
ghost use Rattle.std.specs.Fmt.{signed_decimal};
ghost use Rattle.std.specs.Prelude.{◌≡◌, ◌+◌, ◌-◌, ◌≤◌, ◌++◌, length, replicate, [], IfOk, IfSome};
ghost use Rattle.pli_run.specs.Print.{tab_from, may_begin, lead, characters_from, print};
ghost use Rattle.pli_print.specs.answers.Prints.{Prints};
ghost use Rattle.pli_value.specs.Conversions.{number_characters};

use itoa::Buffer;
use std::alloc::AllocError;

/// The column at which a line is full (own).
const FULL: u32 = 121;

/// What lies between two tab stops.
const BLANKS: [u8; 24] = [b' '; 24];

/// What stands before a number in a line.
const LINE: [u8; 120] = [b' '; 120];

/// The least tab stop that is not before a column.
fn tab_from(column: u32) -> Option<u32>
    ensures value { result ≡ tab_from column }
    ensures onward { IfSome result (λ stop. column ≤ stop) }
    ensures near { IfSome result (λ stop. stop ≤ column + 24) }
    ensures within { IfSome result (λ stop. stop ≤ 97) }
{
    if column <= 1 {
        Some(1)
    } else if column <= 25 {
        Some(25)
    } else if column <= 49 {
        Some(49)
    } else if column <= 73 {
        Some(73)
    } else if column <= 97 {
        Some(97)
    } else {
        None
    }
}

/// Whether an item of so many characters may begin at a column.
fn may_begin(column: u32, size: usize) -> bool
    requires { column ≤ 121 }
    ensures { result ≡ may_begin column size }
{
    column == 1 || size <= (FULL - column) as usize
}

/// Puts what stands before an item of so many characters, and answers the column at which that begins.
fn put_lead(output: &mut Vec<u8>, column: u32, size: usize) -> Result<u32, AllocError>
    requires { column ≤ 121 }
    ensures printed { IfOk result (λ begin. Prints output.old.items output.new.items begin (lead column size)) }
    ensures within { IfOk result (λ begin. begin ≤ 121) }
    ensures fits { size ≤ 120 → IfOk result (λ begin. begin + size ≤ 121) }
{
    match tab_from(column) {
        Some(stop) if may_begin(stop, size) => {
            output.extend_from_slice(&BLANKS[..(stop - column) as usize])?;
            Ok(stop)
        }
        _ => {
            output.push(b'\n')?;
            Ok(1)
        }
    }
}

/// Puts what stands after an item that ends before a column.
fn put_end(output: &mut Vec<u8>, column: u32) -> Result<u32, AllocError>
    requires { column ≤ 121 }
    ensures printed { IfOk result (λ after. Prints output.old.items output.new.items after
        (characters_from column [])) }
    ensures within { IfOk result (λ after. after ≤ 121) }
{
    if column == FULL {
        output.push(b'\n')?;
        Ok(1)
    } else {
        output.push(b' ')?;
        Ok(column + 1)
    }
}

/// Puts the characters of an item from a column on, with what stands after them, and answers the next column.
fn put_characters(output: &mut Vec<u8>, column: u32, text: &[u8]) -> Result<u32, AllocError>
    requires { column ≤ 121 }
    ensures printed { IfOk result (λ after. Prints output.old.items output.new.items after
        (characters_from column text.now)) }
    ensures within { IfOk result (λ after. after ≤ 121) }
{
    let mut from = column;
    let mut rest = text;
    while rest.len() > (FULL - from) as usize {
        let (line, others) = rest.split_at((FULL - from) as usize);
        output.extend_from_slice(line)?;
        output.push(b'\n')?;
        rest = others;
        from = 1;
    }
    output.extend_from_slice(rest)?;
    put_end(output, from + rest.len() as u32)
}

/// Puts an item at a column, and answers the next column.
pub fn put_item(output: &mut Vec<u8>, column: u32, text: &[u8]) -> Result<u32, AllocError>
    requires { column ≤ 121 }
    ensures printed { IfOk result (λ after. Prints output.old.items output.new.items after (print column text.now)) }
    ensures within { IfOk result (λ after. after ≤ 121) }
{
    let begin = put_lead(output, column, text.len())?;
    put_characters(output, begin, text)
}

/// Puts digits at the right of so many columns of one line, with what stands after them, and answers the next column.
fn put_digits(
    output: &mut Vec<u8>,
    column: u32,
    width: usize,
    digits: &[u8],
) -> Result<u32, AllocError>
    requires line { (column + width ≤ 121) × (width ≤ 120) }
    requires held { length digits.now ≤ width }
    ensures printed { IfOk result (λ after. Prints output.old.items output.new.items after
        (characters_from column (replicate (width - length digits.now) 32 ++ digits.now))) }
    ensures within { IfOk result (λ after. after ≤ 121) }
{
    output.extend_from_slice(&LINE[..width - digits.len()])?;
    output.extend_from_slice(digits)?;
    put_end(output, column + width as u32)
}

/// Puts a number at a column, at the right of so many characters, which hold it and fit a line, and answers the next
/// column. What is put is what `put_item` puts of its characters.
pub fn put_number(
    output: &mut Vec<u8>,
    column: u32,
    width: usize,
    number: i64,
) -> Result<u32, AllocError>
    requires line { (column ≤ 121) × (width ≤ 120) }
    requires held { length (signed_decimal number) ≤ width }
    ensures printed { IfOk result (λ after. Prints output.old.items output.new.items after
        (print column (number_characters width number))) }
    ensures within { IfOk result (λ after. after ≤ 121) }
{
    let mut buffer = Buffer::new();
    let digits = buffer.format(number).as_bytes();
    let begin = put_lead(output, column, width)?;
    put_digits(output, begin, width, digits)
}
