//! What holds of every SYNC.

ghost use Rattle.job_laws.specs.Pulls.{BadFilesEndIt, ChunksAreSentOnce, FirstRefusalIsTold, PullsByTheList, RefusalsEndIt};

/// A SYNC that is told what a list and the store have of its group, and whose later reads the list answers, or are refused,
/// asks the steps, and reports the reply, of the job that knows the list. Each of its reads is for the job's next step.
pub fn syncs_pull_by_the_list()
    ensures { PullsByTheList }
{}

/// Beside any remote, a SYNC is about to end its writer for a file exactly where it has just read this file, and it is none,
/// or a manifest of more than 63 files, or where it has read a part of it and it is too long for its kind. It keeps the file's
/// full name.
pub fn bad_files_end_it()
    ensures { BadFilesEndIt }
{}

/// Beside any remote, a SYNC that is over reports a refusal exactly where this was the first that it was given, or a chunk was
/// found to have another length than its index says; or, where it was ending its writer for a file that is none, or a manifest
/// of more than 63 files, the name of that file, or that memory was wanting for that step.
pub fn first_refusals_are_told()
    ensures { FirstRefusalIsTold }
{}

/// Beside any remote, a SYNC that was refused a step or a read, other than the end of its writer, ends its writer next, where
/// it has one, unless the disk failed; else it is over. It ends its writer next too where a chunk has another length than its
/// index says. Behind any refusal, and such a chunk, it asks nothing else.
pub fn refusals_end_it()
    ensures { RefusalsEndIt }
{}

/// The CHUNKs among the commands with which a snapshot is pulled have just the digests of its listed files' pieces, each once.
pub fn chunks_are_sent_once()
    ensures { ChunksAreSentOnce }
{}
