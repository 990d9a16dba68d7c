//! Laws of the definitions, and small texts, read and written by hand. The checker proves each statement, and no call
//! does anything.

ghost use Rattle.obj_text.specs.Limits.{LargeRefused, LongRefused, VertsRefused, TexturesRefused, FacesRefused};
ghost use Rattle.obj_text.specs.Limits.{CornersRefused, EdgesRefused};
ghost use Rattle.obj_reader.specs.Progress.{StepsRead};
ghost use Rattle.obj_text.specs.Returned.{ReadWritten, NamesGiven};
ghost use Rattle.obj_text.specs.WholeRows.{SampleWritten, PlacesWritten, CubeWritten, CutSquareShown, SampleShown};
ghost use Rattle.obj_text.specs.Rows.{LinesJoined, CommentsStand, NumbersRead, NumbersMalformed, NumbersOffGrid};
ghost use Rattle.obj_text.specs.Rows.{IndicesRead, IndicesBad, CornersRead, CornersBad, NamesRead, SquareRead};
ghost use Rattle.obj_text.specs.Rows.{ShortRead, SkippedRead, ChainRead, BlanksRead, TexturesRead, FacesSet, FormsRead};
ghost use Rattle.obj_text.specs.Rows.{NumberFaults, WordFaults, CornerFaults, CutSquareWritten, SquareWritten};
ghost use Rattle.obj_text.specs.Rows.{NumbersWritten};

/// A text is what its physical lines make, one after another.
pub fn steps()
    ensures { StepsRead }
{}

/// What is written of a valid and simple complex that begins with the fixed layers, at a scale, is read at the same
/// scale as that complex with its vertices and faces renamed by rank: points, corners in order from the first, places in
/// the texture, smoothing groups, the name of each face's material, the pairs of vertices that an edge joins, and the
/// libraries are the same. The text has at most 268,435,456 bytes, materials and libraries have names that a line can
/// give, and no library stands twice.
pub fn read_written()
    ensures { ReadWritten }
{}

/// The names of a text that was read are as `read_written` asks.
pub fn names_given()
    ensures { NamesGiven }
{}

/// Lines, joined or not.
pub fn lines()
    ensures joined { LinesJoined }
    ensures comments { CommentsStand }
{}

/// Numbers, as they are read.
pub fn numbers()
    ensures read { NumbersRead }
    ensures malformed { NumbersMalformed }
    ensures off_grid { NumbersOffGrid }
{}

/// Indices, corners and names.
pub fn words()
    ensures indices { IndicesRead }
    ensures bad_indices { IndicesBad }
    ensures corners { CornersRead }
    ensures bad_corners { CornersBad }
    ensures names { NamesRead }
{}

/// Texts that are models.
pub fn accepted()
    ensures square { SquareRead }
    ensures short { ShortRead }
    ensures skipped { SkippedRead }
    ensures chain { ChainRead }
    ensures blanks { BlanksRead }
    ensures textures { TexturesRead }
    ensures faces_set { FacesSet }
    ensures forms { FormsRead }
{}

/// Texts that aren't, at which line, and why.
pub fn refused()
    ensures numbers { NumberFaults }
    ensures words { WordFaults }
    ensures corners { CornerFaults }
{}

/// What is too long, or would pass a limit.
pub fn limits()
    ensures large { LargeRefused }
    ensures long { LongRefused }
    ensures verts { VertsRefused }
    ensures textures { TexturesRefused }
    ensures faces { FacesRefused }
    ensures corners { CornersRefused }
    ensures edges { EdgesRefused }
{}

/// Whole texts, read and written again.
pub fn whole()
    ensures sample { SampleWritten }
    ensures places { PlacesWritten }
    ensures cube { CubeWritten }
{}

/// What a text keeps of a complex, in small ones.
pub fn shown()
    ensures cut { CutSquareShown }
    ensures sample { SampleShown }
{}

/// Texts as they are written.
pub fn written()
    ensures square { SquareWritten }
    ensures cut { CutSquareWritten }
    ensures numbers { NumbersWritten }
{}
