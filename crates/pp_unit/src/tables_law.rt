ghost use Rattle.pp_unit.specs.TableChanges.{FirstMarkHasCommandTable, MarksChangeTables, TableFollowsDirectives};
ghost use Rattle.pp_unit.specs.TableLaws.{ChainsNameOneFile, TablesAgree, TablesAreThere};

/// Of a translation unit that is walked without a fault the events alone give, at each line of each file that was included, the macro
/// definitions that the preprocessor itself had there; so a debugger sees what the preprocessor saw. A file is named by
/// the lines of the inclusions that lead to it, which lead to one file at most; where none was walked, the events give no
/// definitions either.
pub fn tables_agree()
    ensures same { TablesAgree }
    ensures there { TablesAreThere }
    ensures one_file { ChainsNameOneFile }
{}

/// The table that the walk of a translation unit sees changes as its directives say: a `#define` sets one entry, an
/// `#undef` removes one, and nothing else changes it (C17 6.10.3, 6.10.3.5). So it does from each mark of the walk to the
/// next, and the first mark has the table that the words of the command leave.
pub fn tables_follow_directives()
    ensures directives { TableFollowsDirectives }
    ensures marks { MarksChangeTables }
    ensures first { FirstMarkHasCommandTable }
{}
