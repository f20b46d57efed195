ghost use Rattle.std.specs.Prelude.{◌≡◌, ◌==◌, ◌<◌, ◌&&◌, not, IsTrue};
ghost use Rattle.std.specs.List.{list_all};
ghost use Rattle.std.specs.Str.{bytes_eq};
ghost use Rattle.section_views.specs.SectionTable.{has_contents, is_grouped};
ghost use Rattle.section_views.specs.Family.{is_named, is_family, is_member};
ghost use Rattle.section_views.specs.Members.{name_at, IsPlace};

use crate::header::SectionHeader;
use crate::names::Names;

/// How many sections macro information rests on. Their places are those of `Sections`.
pub const FAMILY: usize = 7;

/// The name of the section at a place of the family.
fn name_at(place: usize) -> &'static [u8]
    requires { place < 7 }
    ensures name { result.now ≡ name_at place }
    ensures no_nul { IsTrue (list_all (λ b. not (b == 0)) result.now) }
{
    match place {
        0 => b".debug_macro",
        1 => b".debug_str",
        2 => b".debug_str_offsets",
        3 => b".debug_line",
        4 => b".debug_line_str",
        5 => b".debug_info",
        _ => b".debug_abbrev",
    }
}

/// The place of a name in the family.
pub fn place_of(name: &[u8]) -> Option<usize>
    ensures { IsPlace (bytes_eq name.now) result }
{
    for place in 0..FAMILY {
        if name == name_at(place) {
            return Some(place);
        }
    }
    None
}

/// The place of a section in the family, by its name.
fn place_in(names: &Names<'_>, section: &SectionHeader) -> Option<usize>
    ensures { IsPlace (λ name. is_named names.now name section.now) result }
{
    for place in 0..FAMILY {
        if names.is_text(section.name, name_at(place)) {
            return Some(place);
        }
    }
    None
}

/// Whether a section belongs to the family.
#[tactic(auto, using(crate::proofs::Places::is_some_place))]
pub fn is_family(names: &Names<'_>, section: &SectionHeader) -> bool
    ensures { result ≡ is_family names.now section.now }
{
    section.has_contents() && place_in(names, section).is_some()
}

/// The place in the family of a section that has contents and belongs to no group.
#[tactic(auto, using(crate::proofs::Places::guarded_place))]
pub fn member_place(names: &Names<'_>, section: &SectionHeader) -> Option<usize>
    ensures { IsPlace (λ name. is_member names.now name section.now) result }
{
    if !section.has_contents() || section.is_grouped() {
        return None;
    }
    place_in(names, section)
}
