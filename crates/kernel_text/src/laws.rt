//! Laws over the definitions that the contracts of kernel texts cite; these functions do nothing.
ghost use Rattle.kernel_text.specs.Laws.{KernelsAreWritable, ReadIsWritten, RoundsGiveKernels};
ghost use Rattle.kernel_text.specs.Laws.{TextsAreJudged, TextsAreReadOnce, WrittenIsReadBack};
ghost use Rattle.kernel_text.specs.{LineKinds.{LinesAreCounted}, Serving.{ImagesServe}};
ghost use Rattle.kernel_text.specs.StoredReading.{LinesAreFound, TextsAreTold};

/// A text is read as one format, one repository, one list of members and one list of held classes
/// at most.
pub fn texts_are_read_once()
    ensures { TextsAreReadOnce }
{}

/// A text is read as a kernel exactly if the format can write the kernel and the text is the one
/// that is written for it. So no two texts have one reading, and a written text is read as what it
/// was written for.
pub fn read_is_written()
    ensures { ReadIsWritten }
{}

/// A sound repository with the packages of its classes and the held ones, as an extracted kernel
/// has them, is one that the format can write.
pub fn kernels_are_writable()
    ensures { KernelsAreWritable }
{}

/// The kernel that rounds give of the repository of an index is such a repository, with the class
/// of each package.
pub fn rounds_give_kernels()
    ensures { RoundsGiveKernels }
{}

/// The text of a kernel has a line for each clause of each class, and a line for each conflict,
/// which is counted once.
pub fn lines_are_counted()
    ensures { LinesAreCounted }
{}

/// A text is that of a kernel or has a fault, not both, and one fault at most.
pub fn texts_are_judged()
    ensures { TextsAreJudged }
{}

/// What a text is read as, line by line, is the kernel whose text it is.
pub fn texts_are_told()
    ensures { TextsAreTold }
{}

/// A line is found by its words exactly if it has the bytes of the text and is allowed.
pub fn lines_are_found()
    ensures { LinesAreFound }
{}

/// The text of an index's kernel is read as that kernel, and goals name in it the classes of the
/// packages that they name in the index. So a question to the stored kernel is that to the index.
pub fn written_is_read_back()
    ensures { WrittenIsReadBack }
{}

/// A healthy set of classes of a kernel serves goals exactly if it hits the classes that each of
/// them names.
pub fn images_serve()
    ensures { ImagesServe }
{}
