ghost use Rattle.mac_io.specs.SearchLaws.{FilesAreBytes, FoundFilesAreBytes, SearchHasOneAnswer, SearchIsDecided};

/// Where the stores of a search tell their files, these alone decide which file is found, that none is, or that the first is
/// too long.
pub fn search_has_one_answer()
    ensures { SearchHasOneAnswer }
{}

/// Where all stores of a path tell their files, each search for a header finds a file, or that there is none, or that the first
/// is too long; and only one of these.
pub fn search_is_decided()
    ensures { SearchIsDecided }
{}

/// What a store has at a name is bytes, whether it tells its files or not; and so is what a search finds.
pub fn files_are_bytes()
    ensures stores { FilesAreBytes }
    ensures search { FoundFilesAreBytes }
{}
