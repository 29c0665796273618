// Whether a name can be that of a file to be kept, before anything is made for it.
use crate::identity::Unseen;
use crate::{identity, paths, trouble};

fn is_in_a_folder(rt: &HostRuntime, path: &[u8]) -> bool {
    identity::of_name(rt, paths::folder(path)) != Err(Unseen::Absent)
}

// `what` is what the file should be, as `a journal`. If it can't, there was a word on standard error.
pub fn is_fit(rt: &HostRuntime, path: &[u8], what: &[u8]) -> bool {
    if let Ok(there) = identity::of_name(rt, path) {
        if there.is_folder() {
            trouble::begin(rt, path, b"it is a folder, not ");
            trouble::end(rt, what);
            return false;
        }
        return true;
    }
    if identity::is_link(rt, path) {
        trouble::say(rt, path, b"it is a link that leads to no file");
        return false;
    }
    if !is_in_a_folder(rt, path) {
        trouble::say(rt, path, b"its folder does not exist");
        return false;
    }
    true
}
