//! What a pass reads of the tree: single loads, and the search for a key from the root down to a leaf. Contracts say what the pass can
//! be sure of then, whatever other passes publish meanwhile.
//!
//! # Mechanism
//!
//! A search takes no lock and tries nothing twice. It begins at the root's entry, with the pass pinned, and makes for each node on
//! its path these loads:
//!
//! 1. the first word of its head, which has the node's count, height and kind. Then the lines of the node's entries are touched, by loads
//!    that are no steps, so that they come meanwhile;
//! 2. the words of the head that say something in that kind, 6, 12 or 24 more. The key's bits at the columns are gathered into a dense
//!    partial key. The last row, a sparse partial key, that complies with it tells the slot;
//! 3. the entry in that slot. It names a leaf, or a node of lower height, so the path ends.
//!
//! At the leaf the length and the words of the key are loaded and compared, up to the first difference. If there is none, the
//! value is loaded.
//!
//! # Four searches
//!
//! [`look_up`] keeps nothing of its path: a get. [`look_up_all`] takes sixteen keys down side by side, a node at a time, so that the loads
//! of one wait while those of the others run. [`search_way`] keeps for each node what a change or a scan may ask of it later.
//! [`find_affected`] asks one node of a path once more: which entries does a new leaf affect?
//!
//! # Why a search in old nodes is right
//!
//! A node's head never changes while the node lives. Its entries change by one store each, and no more once the node is replaced. So a
//! reader may stand in a node that a writer has replaced. The node shows what it showed in the last version that had it, and by then
//! the search had begun. As long as a node lives, all keys below it agree up to its first fork. So at each step the search has either
//! followed its key in some version since it began, or the key was absent in such a version. At the end the leaf decides. The crate
//! `version_laws` proves this for versions; here it is told of the words that were loaded.
//!
//! What a pass has learned by its loads is kept as facts about versions of the past, which no step of another pass makes false.
//! So a contract says: the value was the key's at a moment between the call's load of the root and its end.
//!
//! # What carries the proof
//!
//! A pass is *sure* of what holds in every lawful core that agrees with what it recalls (`Sure`, `Recalls`): the changes seen, facts, its
//! pin. It stays sure whatever others publish (`IsLater`). `load_root`, `search_node`, `load_entry`, `load_value` leave facts; a head's
//! words are of one node, in whichever version each was loaded (`AreHeadWords`). `look_up` ends in `HasFound`: the value was the key's in a
//! version since the root's load, or the key was absent in one. `search_way` keeps the path. `look_up_all` keeps for each key the entry to
//! which its way has led since the root's load (`HasComeTo`). Each node entered lowers the heights' sum (`heights_in`).
//!
//! A pass sees no core. A step says that there was one in which its knowledge was true and the step legal (`IsPossible`). So a conclusion
//! has to hold in all that are possible. Facts are of versions since the pin. One fact serves readers that count from their root's load and
//! writers that count from their locks (`IsPinnedSince`). A key and a leaf are compared as words, since no two keys have the same words
//! (`IsCompared`).
#![tactic(auto)]

mod affected;
mod descent;
mod lookup;
mod reading;
mod together;

pub use affected::find_affected;
pub use descent::{Found, MOST_NODES, search_way};
pub use lookup::look_up;
pub use reading::{load_entry, load_leaf, load_path_node, load_root};
pub use together::look_up_all;
