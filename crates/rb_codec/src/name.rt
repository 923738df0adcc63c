ghost use Rattle.std.specs.Prelude.{◌≡◌, ◌≤◌, vec_len, IfOk};
ghost use Rattle.rb_log_defs.specs.File.{base_name as base_of, file_name as name_of};

use rb_base::{NoMemory, SiteId};
use std::alloc::Global;

/// The least number of digits in a file's name.
const LEAST_DIGITS: usize = 6;

/// Returns the name of a site's binlog file: the site's base name and the file's number in at least
/// six digits, as in `a-bin.000002`. A name has at most 16 bytes.
#[tactic(auto, using(rb_log_defs::proofs::Sizes::name_length))]
pub fn file_name(alloc: Global, site: SiteId, number: u32) -> Result<Vec<u8>, NoMemory>
    ensures name { IfOk result (λ name. name.items ≡ name_of site number) }
    ensures short { IfOk result (λ name. vec_len name ≤ 16) }
{
    let digits = number.to_string(alloc)?;
    let zeros = vec![in alloc; b'0'; LEAST_DIGITS.saturating_sub(digits.len())]?;
    let mut name = Vec::from_slice(alloc, base_name(site))?;
    name.extend_from_slice(&zeros)?;
    name.extend_from_slice(digits.as_bytes())?;
    Ok(name)
}

// Returns the base name of a site's files.
fn base_name(site: SiteId) -> &'static [u8]
    ensures { result.now ≡ base_of site }
{
    match site {
        SiteId::A => b"a-bin.",
        SiteId::B => b"b-bin.",
    }
}
