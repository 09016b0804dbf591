ghost use Rattle.std.specs.Prelude.{◌≡◌};
ghost use Rattle.std.specs.List.{list_all};
ghost use Rattle.std.specs.Option.{option_copied};
ghost use Rattle.file_options.specs.Paths as spec;

fn trimmed(path: &str) -> &str
    ensures { result.now ≡ spec.trimmed path.now }
{
    path.trim_start_matches('/').trim_end_matches('/')
}

fn is_path_byte(b: u8) -> bool
    ensures { result ≡ spec.is_path_byte b }
{
    b.is_ascii_alphanumeric() || b == b'_' || b == b'.' || b == b'-'
}

fn are_path_bytes(bytes: &[u8]) -> bool
    ensures { result ≡ list_all spec.is_path_byte bytes.now }
{
    bytes.iter().all(|b| is_path_byte(*b))
}

fn is_segment(text: &str) -> bool
    ensures { result ≡ spec.is_segment text.now }
{
    !text.is_empty() && text != "." && text != ".." && are_path_bytes(text.as_bytes())
}

fn is_folder(path: &str) -> bool
    ensures { result ≡ spec.is_folder path.now }
{
    path.split('/').all(|segment| is_segment(segment))
}

/// The folder that a path names, without slashes at its ends: one or more segments with a slash
/// between each two, each of letters, digits, `_`, `.` and `-`, and neither `.` nor `..`.
pub fn folder_of(path: &str) -> Option<&str>
    ensures { option_copied result ≡ spec.folder_of path.now }
{
    let dir = trimmed(path);
    if is_folder(dir) { Some(dir) } else { None }
}
