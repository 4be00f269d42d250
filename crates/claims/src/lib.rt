//! The sentences on what the commands print, in specs/Sentences.antt. Some words that they rest on
//! are functions in the code, or are said there at greater length. Only those are said here once
//! more, under names of their own, and laws tie the two. The functions do nothing: the contract of
//! each is one law.
#![tactic(auto)]

ghost use Rattle.claims.specs.Laws.{TreesAreSearches, SearchesAreOne, IndexesAreRead};
ghost use Rattle.claims.specs.Laws.{IndexesAreOne, IndexesAreAccepted, KernelsAreKernels};
ghost use Rattle.claims.specs.Laws.{KernelsAreOne, KernelsMeanThis, PrintedKernelsAreFaithful};
ghost use Rattle.claims.specs.Laws.{KernelTextsAreThere, KernelTextsAreOne, KernelWordsAsk};
ghost use Rattle.claims.specs.Laws.{CompareWordsAsk, WordsAreTaken, ComparisonsMeanThis};
ghost use Rattle.claims.specs.Laws.{EmptyIndexes, TrueReports, WrongReports};

/// A search tree says whether its search finds something, and how many leaves fail before.
pub fn trees_are_searches()
    ensures { TreesAreSearches }
{}

/// A search ends in one way.
pub fn searches_are_one()
    ensures { SearchesAreOne }
{}

/// A text without a fault is an index of the packages that are read of it.
pub fn indexes_are_read()
    ensures { IndexesAreRead }
{}

/// An index of no more packages than there may be has no fault.
pub fn indexes_are_accepted()
    ensures { IndexesAreAccepted }
{}

/// A text is an index of one list of packages, but for their line numbers and whether they have an
/// architecture other than `all`. It has one home.
pub fn indexes_are_one()
    ensures { IndexesAreOne }
{}

/// The kernel that is computed is the first repository that a round leaves as it is.
pub fn kernels_are_kernels()
    ensures { KernelsAreKernels }
{}

/// A repository has one kernel, and a set of its packages one image there.
pub fn kernels_are_one()
    ensures { KernelsAreOne }
{}

/// What the code keeps of a printed kernel is the first sentence.
pub fn kernels_mean_this()
    ensures { KernelsMeanThis }
{}

/// The text of the kernel of an index, at any limit, with hold or without, is a faithful kernel of
/// it.
pub fn printed_kernels_are_faithful()
    ensures { PrintedKernelsAreFaithful }
{}

/// The text of the kernel of an index is one in the words of the sentences, so that they speak of
/// some text.
pub fn kernel_texts_are_there()
    ensures { KernelTextsAreThere }
{}

/// An index has one kernel text, so that they speak of the same text.
pub fn kernel_texts_are_one()
    ensures { KernelTextsAreOne }
{}

/// The words of a kernel ask for it, if they ask for anything.
pub fn kernel_words_ask()
    ensures { KernelWordsAsk }
{}

/// The words of a comparison ask for it, if they ask for anything.
pub fn compare_words_ask()
    ensures { CompareWordsAsk }
{}

/// Some words of a kernel and of a comparison are taken.
pub fn words_are_taken()
    ensures { WordsAreTaken }
{}

/// What the code keeps of a comparison is the second sentence.
pub fn comparisons_mean_this()
    ensures { ComparisonsMeanThis }
{}

/// The sentences are true of empty indexes, and the first is not of a kernel that lacks the package
/// of its index.
pub fn empty_indexes()
    ensures { EmptyIndexes }
{}

/// The other sentences are true of some reports on an empty index.
pub fn true_reports()
    ensures { TrueReports }
{}

/// The sentences are not true of some reports, each wrong for one reason.
pub fn wrong_reports()
    ensures { WrongReports }
{}
