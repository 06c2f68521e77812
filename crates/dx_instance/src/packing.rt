// The first numbers of a row as one number.
ghost use Rattle.std.specs.Prelude.{◌≡◌, ◌<◌, ◌≤◌, ◌^◌, ◌++◌, IfSome, OnOk, slice_index};
ghost use Rattle.dx_instance.specs.Keys.{AllSmall, HasBits, DigitsFit, packed, unpacked};
ghost use Rattle.dx_instance.specs.Shown.{NumbersBelow};

use std::alloc::AllocError;

/// How the first numbers of a row make one number, by which rows are sorted first: as so many digits to this base.
#[derive(Clone, Copy)]
pub(crate) struct Packing {
    base: u64,
    digits: usize,
}

impl Packing {
    /// As many digits as 64 bits have room for, if each number is below the bound.
    pub(crate) fn below(bound: u64) -> Packing
        requires { bound ≤ 2 ^ 32 }
        ensures wide { bound ≤ result.base }
        ensures room { DigitsFit result.base result.digits }
    {
        let (base, digits) = if bound <= 65_536 {
            (65_536, 4)
        } else if bound <= 2_642_245 {
            (2_642_245, 3)
        } else {
            (4_294_967_296, 2)
        };
        Packing { base, digits }
    }

    /// A number that compares as the first numbers of the row.
    pub(crate) fn key_of(self, row: &[u32]) -> u64
        requires room { DigitsFit self.base self.digits }
        requires below { NumbersBelow self.base row.now }
        ensures key { result ≡ packed self.base self.digits 0 row.now }
        ensures small { AllSmall self.base self.digits row.now }
    {
        let mut key = 0u64;
        for i in 0..self.digits {
            key = key * self.base + number_or_zero(row, i) as u64;
        }
        key
    }
}

/// How all numbers of a row make one number, from which the row can be read again: each takes so many bits.
#[derive(Clone, Copy)]
pub(crate) struct RowPacking {
    bits: u32,
    width: u32,
}

impl RowPacking {
    /// For rows of so many numbers below the bound. None if 64 bits have no room for them.
    pub(crate) fn below(bound: u64, width: u32) -> Option<RowPacking>
        ensures width { IfSome result (λ p. p.width ≡ width) }
        ensures wide { IfSome result (λ p. bound ≤ 2 ^ p.bits) }
        ensures room { IfSome result (λ p. HasBits p.bits p.width) }
    {
        if width == 0 || width > 64 {
            return None;
        }
        let bits = if width == 1 { 32 } else { 64 / width };
        if bound > 1u64 << bits {
            return None;
        }
        Some(RowPacking { bits, width })
    }

    /// The row as one number. It compares as the row.
    pub(crate) fn key_of(self, row: &[u32]) -> u64
        requires room { HasBits self.bits self.width }
        requires below { NumbersBelow (2 ^ self.bits) row.now }
        ensures { result ≡ packed (2 ^ self.bits) self.width 0 row.now }
    {
        let packing = Packing {
            base: 1u64 << self.bits,
            digits: self.width as usize,
        };
        packing.key_of(row)
    }

    /// Puts the numbers of the row that has this key at the end of some cells.
    pub(crate) fn push_row(self, cells: &mut Vec<u32>, key: u64) -> Result<(), AllocError>
        requires { HasBits self.bits self.width }
        ensures { OnOk result (cells.new.items ≡ cells.old.items ++ unpacked self.bits self.width key) }
    {
        let mask = (1u64 << self.bits) - 1;
        for i in 0..self.width {
            let shift = self.bits * (self.width - 1 - i);
            cells.push(((key >> shift) & mask) as u32)?;
        }
        Ok(())
    }
}

// The number at a place of a row, and 0 if the row is shorter.
fn number_or_zero(row: &[u32], place: usize) -> u32
    ensures { result ≡ slice_index row.now place }
{
    if place < row.len() { row[place] } else { 0 }
}
