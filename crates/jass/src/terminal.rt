use std::fs::read_link;

/// Whether standard error is a terminal, by the text of the system's link to it: std has no look at a descriptor.
pub fn notes_go_to_a_terminal(rt: &HostRuntime) -> bool {
    match read_link(rt, "/proc/self/fd/2") {
        Ok(path) => is_terminal(path.to_str().unwrap_or("")),
        Err(_) => false,
    }
}

fn is_terminal(path: &str) -> bool {
    path.starts_with("/dev/pts/") || path.starts_with("/dev/tty") || path == "/dev/console"
}
