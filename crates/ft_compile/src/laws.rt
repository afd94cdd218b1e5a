//! Laws of the definitions, each the contract of a function that does nothing.
ghost use Rattle.ft_compile.specs.Laws.{AllWordsStand, CarriedBlocksRunAsMeant, CompiledObjectsAreModules, CutMeaningsBeginTheRun, DoneRunsWriteTheMeaning, EmittedObjectsAreAccepted, EndedMeaningsAreWritten, LinesAreByTheProgramsNames, OwnBlocksRunAsMeant, OwnWordsRunAsMeant, ProgramsHaveCells, ProgramsHaveObjects, RunningRunsBeginTheMeaning, SchedulesOfCompiledObjectsAreModules};

/// An object that carries the blocks to which a program is lowered runs as the program means, with the object's initial
/// words for the program's.
pub fn carried_blocks_run_as_meant()
    ensures all { CarriedBlocksRunAsMeant }
    ensures own { OwnBlocksRunAsMeant }
{}

/// The object of well-formed blocks, over at most 1,024 cells with valid names, carries these blocks, and is spellable
/// and accepted.
pub fn emitted_objects_are_accepted()
    ensures { EmittedObjectsAreAccepted }
{}

/// The cells of a text's program have different names of 1 to 38 bytes that are valid in objects, and there are at most
/// 1,024 cells.
pub fn programs_have_cells()
    ensures { ProgramsHaveCells }
{}

/// The run of an object that stands for a program does what the program means. With other initial words in its cells,
/// the object stands for the program with these words.
pub fn all_words_stand()
    ensures own { OwnWordsRunAsMeant }
    ensures all { AllWordsStand }
{}

/// The object to which a text's program is compiled stands for the program.
pub fn programs_have_objects()
    ensures { ProgramsHaveObjects }
{}

/// The object to which a text is compiled is a module that the linker accepts: it is spellable and accepted, its cells
/// and rows have the base `int`, and the walk that traces code addresses fails in none of its blocks. The same holds
/// for its schedule.
pub fn compiled_objects_are_modules()
    ensures compiled { CompiledObjectsAreModules }
    ensures scheduled { SchedulesOfCompiledObjectsAreModules }
{}

/// If an object stands for a program, outputs have the same lines whether their cells are named by the object, as for a
/// run, or by the program, as for a meaning. So the run and the meaning write the same lines if both end: a run that is
/// done after n steps has the lines of the meaning with n turns, and a run of at least 16 times the work plus 320 steps
/// is done, with the lines of the meaning. If one of them is cut short, its lines are a prefix of the other's: the
/// lines of a run that is running after n steps are a prefix of those of the meaning with n turns, and the lines of a
/// meaning that is cut are a prefix of those of a run of at least 16 times its work plus 320 steps.
pub fn runs_and_meanings_write_the_same_lines()
    ensures lines { LinesAreByTheProgramsNames }
    ensures done { DoneRunsWriteTheMeaning }
    ensures running { RunningRunsBeginTheMeaning }
    ensures ended { EndedMeaningsAreWritten }
    ensures cut { CutMeaningsBeginTheRun }
{}
