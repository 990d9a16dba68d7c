//! Numbers as they are written.
ghost use Rattle.std.specs.Prelude.{◌≡◌, ◌≤◌, ◌++◌, OnOk};
ghost use Rattle.std.specs.Fmt.{decimal};
ghost use Rattle.obj_writer.specs.Written.{wide_decimal, magnitude, grid_number};

use itoa::Buffer;
use mesh_model::NoMemory;

/// Appends a number in decimal digits.
pub fn push_decimal(out: &mut Vec<u8>, n: u64) -> Result<(), NoMemory>
    ensures { OnOk result (out.new.items ≡ out.old.items ++ decimal n) }
{
    let mut buffer = Buffer::new();
    out.extend_from_slice(buffer.format(n).as_bytes())?;
    Ok(())
}

/// Appends a number of units with so many decimal places.
pub fn push_grid_number(out: &mut Vec<u8>, scale: u8, n: i64) -> Result<(), NoMemory>
    requires { scale ≤ 6 }
    ensures { OnOk result (out.new.items ≡ out.old.items ++ grid_number scale n) }
{
    if n < 0 {
        out.push(b'-')?;
        push_magnitude(out, scale, n.unsigned_abs())?;
        return Ok(());
    }
    push_magnitude(out, scale, n.unsigned_abs())
}

#[tactic(auto, using(crate::proofs::NumberLemmas::unit_fits, crate::proofs::NumberLemmas::unit_positive))]
fn push_magnitude(out: &mut Vec<u8>, scale: u8, n: u64) -> Result<(), NoMemory>
    requires { scale ≤ 6 }
    ensures { OnOk result (out.new.items ≡ out.old.items ++ magnitude scale n) }
{
    if scale == 0 {
        return push_decimal(out, n);
    }
    let unit = 10u64.pow(scale as u32);
    push_decimal(out, n / unit)?;
    out.push(b'.')?;
    push_wide(out, scale as usize, n % unit)?;
    Ok(())
}

// Appends a number with zeros in front, in at least so many digits.
fn push_wide(out: &mut Vec<u8>, width: usize, n: u64) -> Result<(), NoMemory>
    requires { width ≤ 6 }
    ensures { OnOk result (out.new.items ≡ out.old.items ++ wide_decimal width n) }
{
    let mut buffer = Buffer::new();
    let digits = buffer.format(n);
    let zeros = width.saturating_sub(digits.len());
    out.extend_from_slice(&b"000000"[..zeros])?;
    out.extend_from_slice(digits.as_bytes())?;
    Ok(())
}
