// The command `check`.
ghost use Rattle.std.specs.Prelude.{◌≡◌, ◌<◌, ◌≤◌, [], Some, length, map};
ghost use Rattle.cacao_cli_ends.specs.Asked.{checks};
ghost use Rattle.cacao_cli_ends.specs.Told.{end_of};
ghost use Rattle.cacao_cli_looks.specs.Looking.{Looked};
ghost use Rattle.cacao_cli_ends.specs.Files.{files_of, shelf_call};

use crate::file::read_files;
use crate::judge::judge;
use crate::tree::trees_of;
use cacao_check::Mode;
use cacao_cli_ends::{End, Limit};
use cacao_site::{Shelf, Site};
use std::alloc::Global;
use std::mem::forget;

/// `check`: says whether the playbooks are accepted, or the first break of a rule.
pub fn check<'w, L: Shelf, S: Site>(
    alloc: Global,
    names: &[&'w str],
    shelf: &mut L,
    _site: &mut S,
) -> End<'w>
    requires { 0 < length names.now }
    ensures performed { Looked (Some (checks (map (λ name. name.now) names.entry.now)))
        (shelf_call (L.told shelf.old) (L.faults shelf.old) (L.faults shelf.new) (L.reads shelf.old) (L.reads shelf.new))
        (S.view _site.old) (S.view _site.new) (end_of result) }
    ensures files { L.told shelf.new ≡ L.told shelf.old }
    ensures faults { L.faults shelf.old ≤ L.faults shelf.new }
    ensures untouched { files_of (Some (checks (map (λ name. name.now) names.entry.now))) ≡ [] → shelf.new ≡ shelf.old }
{
    let limit = Limit::BookCount;
    if names.len() as u64 > limit.most() {
        return End::Past { limit };
    }
    let texts = match read_files(alloc, names, shelf) {
        Ok(texts) => texts,
        Err(end) => return end,
    };
    match trees_of(alloc, texts.as_slice()) {
        Ok(trees) => {
            let end = judge(alloc, trees.as_slice(), Mode::Read);
            // The work ends here, and the trees' memory goes back with that of the process, all at once.
            forget(trees);
            end
        }
        Err(end) => end,
    }
}
