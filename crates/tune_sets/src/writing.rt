// The bytes of set lists.
ghost use Rattle.std.specs.Prelude.{◌≡◌, ◌++◌, List, IfOk, OnOk};
ghost use Rattle.std.specs.List.{AllByRecursion};
ghost use Rattle.byteorder.specs.Endian.{big_bytes};
ghost use Rattle.tune_sets.specs.Sets.{IsTuneSet, AreSetLists};
ghost use Rattle.tune_sets.specs.SetBytes.{written_numbers, stored_set, written_sets};
ghost use Rattle.tune_sets.specs.declared.set_lists.TuneSet.{TuneSet};

use crate::set_lists::{SetLists, TuneSet};
use abc_fields::ByteText;
use byteorder::{BigEndian, ByteOrder};
use std::alloc::AllocError;

impl SetLists {
    /// The bytes of the sets, one set after another: the length of its name in one byte, the name,
    /// the number of its places in two bytes, and the number at each in four; the highest byte
    /// first. The error is out of memory.
    pub fn write(&self) -> Result<ByteText, AllocError>
        ensures bytes { IfOk result (λ bytes. bytes ≡ written_sets self.now) }
        ensures only { IfOk result (λ bytes. (sets : List TuneSet) → AreSetLists sets
            → written_sets sets ≡ bytes → sets ≡ self.now) }
    {
        let mut bytes = Vec::new(self.alloc);
        write_sets(&mut bytes, &self.sets)?;
        Ok(ByteText::from_vec(bytes))
    }
}

fn write_sets(bytes: &mut Vec<u8>, sets: &[TuneSet]) -> Result<(), AllocError>
    requires { AllByRecursion IsTuneSet sets.now }
    ensures { OnOk result (bytes.new.items ≡ bytes.old.items ++ written_sets sets.now) }
{
    for set in sets {
        write_set(bytes, set)?;
    }
    Ok(())
}

fn write_set(bytes: &mut Vec<u8>, set: &TuneSet) -> Result<(), AllocError>
    requires { IsTuneSet set.now }
    ensures { OnOk result (bytes.new.items ≡ bytes.old.items ++ stored_set set.now) }
{
    let name = set.name.as_slice();
    let numbers = set.numbers.as_slice();
    bytes.push(name.len() as u8)?;
    bytes.extend_from_slice(name)?;
    bytes.extend_from_slice(&count_bytes(numbers.len() as u16))?;
    write_numbers(bytes, numbers)
}

fn write_numbers(bytes: &mut Vec<u8>, numbers: &[u32]) -> Result<(), AllocError>
    ensures { OnOk result (bytes.new.items ≡ bytes.old.items ++ written_numbers numbers.now) }
{
    for number in numbers {
        bytes.extend_from_slice(&number_bytes(*number))?;
    }
    Ok(())
}

fn count_bytes(count: u16) -> [u8; 2]
    ensures { result ≡ big_bytes 2 count }
{
    let mut bytes = [0; 2];
    BigEndian::write_u16(&mut bytes, count);
    bytes
}

fn number_bytes(number: u32) -> [u8; 4]
    ensures { result ≡ big_bytes 4 number }
{
    let mut bytes = [0; 4];
    BigEndian::write_u32(&mut bytes, number);
    bytes
}
