ghost use Rattle.std.specs.Prelude.{◌≡◌, length};

use crate::family::{FAMILY, member_place};
use crate::fault::ElfFault;
use crate::names::Names;
use crate::table::Table;

/// A section of the family: its number and its contents.
#[derive(Clone, Copy, Debug)]
pub struct Member<'a> {
    pub number: u32,
    pub bytes: &'a [u8],
}

/// The sections of the family, each at its place.
#[derive(Clone, Copy, Debug)]
pub struct Members<'a> {
    pub at: [Option<Member<'a>>; FAMILY],
    ghost full: { length at ≡ 7 },
}

impl<'a> Members<'a> {
    ghost use Rattle.std.specs.Prelude.{◌≡◌, ◌≢◌, ◌<◌, ℕ, None, Some, IfOk};
    ghost use Rattle.std.specs.List.{slice_index_or};
    ghost use Rattle.std.specs.Result.{result_err};
    ghost use Rattle.section_views.specs.SectionTable.{section_count, names_of};
    ghost use Rattle.section_views.specs.Faults.{range_fault, second_fault};
    ghost use Rattle.section_views.specs.Members.{AreFirst};

    /// The sections of the family outside groups, one of each name.
    #[tactic(auto, unfolding(crate::specs::Faults::second_fault))]
    pub fn find(table: &Table<'a>, names: &Names<'_>) -> Result<Members<'a>, ElfFault>
        requires ranges { range_fault table.now ≡ None }
        requires names { names.now ≡ names_of table.now }
        ensures fault { result_err result ≡ second_fault table.now }
        ensures members { IfOk result (AreFirst table.now (section_count table.now)) }
    {
        let mut members = Members { at: [None; FAMILY] };
        for n in 1..table.count() {
            let Some(place) = member_place(names, &table.header(n)) else {
                continue;
            };
            if members.get(place).is_some() {
                return Err(ElfFault::Twice { n });
            }
            let bytes = table.contents(n);
            members.put(place, Member { number: n, bytes });
        }
        Ok(members)
    }

    /// The section at a place.
    pub fn get(&self, place: usize) -> Option<Member<'a>>
        requires { place < 7 }
        ensures { result ≡ slice_index_or self.now.at place None }
    {
        self.at[place]
    }

    /// Puts a section at a place.
    fn put(&mut self, place: usize, member: Member<'a>)
        requires { place < 7 }
        ensures here { slice_index_or self.new.at place None ≡ Some member.entry }
        ensures others { (k : ℕ) → k ≢ place → slice_index_or self.new.at k None ≡ slice_index_or self.old.at k None }
    {
        self.at[place] = Some(member);
    }
}
