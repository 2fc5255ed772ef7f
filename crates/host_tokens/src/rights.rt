//! Rights for a host: a set of rights is its 32-bit word, so that `new` changes nothing.
ghost use Rattle.std.specs.Prelude.{◌≡◌, ◌%◌, ◌^◌, eqb, get_or};
ghost use Rattle.token.specs.Rights.{constants, holds, common, either, without, others, to_flags};

use token::Rights;

// READ is 0, CREATE 7, ALL 8; past that, no rights.
#[unsafe(no_mangle)]
pub extern "C" fn stonespry_rights_constant(number: u8) -> u32
    ensures { result ≡ get_or constants number 0 }
{
    u32::from(Rights::constant(number))
}

#[unsafe(no_mangle)]
pub extern "C" fn stonespry_rights_new(rights: u32) -> u32
    ensures { result ≡ rights }
{
    u32::from(Rights::new(rights))
}

#[unsafe(no_mangle)]
pub extern "C" fn stonespry_rights_contains(rights: u32, other: u32) -> bool
    ensures { result ≡ holds rights other }
{
    Rights::new(rights).contains(Rights::new(other))
}

#[unsafe(no_mangle)]
pub extern "C" fn stonespry_rights_intersection(rights: u32, other: u32) -> u32
    ensures { result ≡ common rights other }
{
    u32::from(Rights::new(rights).intersection(Rights::new(other)))
}

#[unsafe(no_mangle)]
pub extern "C" fn stonespry_rights_union(rights: u32, other: u32) -> u32
    ensures { result ≡ either rights other }
{
    u32::from(Rights::new(rights).union(Rights::new(other)))
}

#[unsafe(no_mangle)]
pub extern "C" fn stonespry_rights_remove(rights: u32, other: u32) -> u32
    ensures { result ≡ without rights other }
{
    u32::from(Rights::new(rights).remove(Rights::new(other)))
}

#[unsafe(no_mangle)]
pub extern "C" fn stonespry_rights_bits(rights: u32) -> u16
    ensures { result ≡ rights % 2 ^ 16 }
{
    Rights::new(rights).bits()
}

#[unsafe(no_mangle)]
pub extern "C" fn stonespry_rights_is_empty(rights: u32) -> bool
    ensures { result ≡ eqb rights 0 }
{
    Rights::new(rights).is_empty()
}

#[unsafe(no_mangle)]
pub extern "C" fn stonespry_rights_empty() -> u32
    ensures { result ≡ 0 }
{
    u32::from(Rights::empty())
}

#[unsafe(no_mangle)]
pub extern "C" fn stonespry_rights_to_flags(rights: u32) -> u8
    ensures { result ≡ to_flags rights }
{
    Rights::new(rights).to_flags()
}

#[unsafe(no_mangle)]
pub extern "C" fn stonespry_rights_complement(rights: u32) -> u32
    ensures { result ≡ others rights }
{
    u32::from(!Rights::new(rights))
}

#[unsafe(no_mangle)]
pub extern "C" fn stonespry_rights_difference(rights: u32, other: u32) -> u32
    ensures { result ≡ without rights other }
{
    u32::from(Rights::new(rights).difference(Rights::new(other)))
}
