//! The order of committed transactions.

ghost use Rattle.std.specs.Prelude.{◌≡◌, IfOk};
ghost use Rattle.vp_model.specs.OneCopy.{order};

use std::alloc::Global;
use vp_base::{Commit, Commits, CopyOf, NoMemory, Seq};

/// Sorts copies of the transactions by view; those of one view stay in the order of the journal.
pub fn order(alloc: Global, journal: &[Commit]) -> Result<Commits, NoMemory>
    ensures { IfOk result (λ commits. commits ≡ order journal.now) }
{
    let mut commits = copies(alloc, journal)?;
    commits.sort_by_key(|commit| (commit.view.number, commit.view.site))?;
    Ok(Seq::from_vec(commits))
}

fn copies(alloc: Global, commits: &[Commit]) -> Result<Vec<Commit>, NoMemory>
    ensures { IfOk result (λ copies. copies.items ≡ commits.now) }
{
    let mut copies = Vec::new(alloc);
    for commit in commits {
        copies.push(commit.copy_of()?)?;
    }
    Ok(copies)
}
