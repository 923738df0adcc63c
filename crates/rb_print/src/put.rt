ghost use Rattle.std.specs.Prelude.{◌≡◌, ◌++◌, map, OnOk};
ghost use Rattle.std.specs.List.{concat};
ghost use Rattle.rb_text_defs.specs.Report.{labelled, letter_of};

use itoa::Buffer;
use rb_base::{NoMemory, SiteId};

/// A number with its label before it.
#[derive(Clone, Copy)]
pub(crate) struct Labelled<'a>(pub(crate) &'a [u8], pub(crate) u64);

/// Appends bytes unchanged.
pub(crate) fn put(text: &mut Vec<u8>, bytes: &[u8]) -> Result<(), NoMemory>
    ensures { OnOk result (text.new.items ≡ text.old.items ++ bytes.now) }
{
    text.extend_from_slice(bytes)?;
    Ok(())
}

/// Appends a number after its label. The digits are made on the stack.
pub(crate) fn put_number(text: &mut Vec<u8>, label: &[u8], number: u64) -> Result<(), NoMemory>
    ensures { OnOk result (text.new.items ≡ text.old.items ++ labelled label.now number) }
{
    text.extend_from_slice(label)?;
    text.extend_from_slice(Buffer::new().format(number).as_bytes())?;
    Ok(())
}

/// Appends numbers, each after its label.
pub(crate) fn put_numbers(text: &mut Vec<u8>, numbers: &[Labelled<'_>]) -> Result<(), NoMemory>
    ensures { OnOk result (text.new.items
        ≡ text.old.items ++ concat (map (λ number. labelled number.0.now number.1) numbers.now)) }
{
    for number in numbers {
        put_number(text, number.0, number.1)?;
    }
    Ok(())
}

/// Returns the letter of a site.
pub(crate) fn letter(site: SiteId) -> &'static [u8]
    ensures { result.now ≡ letter_of site }
{
    match site {
        SiteId::A => b"A",
        SiteId::B => b"B",
    }
}
