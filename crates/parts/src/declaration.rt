// The declaration that a message may begin with.
ghost use Rattle.std.specs.Prelude.{◌≡◌, ◌≤◌, length, IfSome, Decides};
ghost use Rattle.parts.specs.Declarations.{is_declared, declaration_len};

// Whether a message begins with `<?xml`.
fn is_declared(message: &[u8]) -> bool
    ensures { result ≡ is_declared message.now }
{
    message.starts_with(b"<?xml")
}

// How many bytes the declaration has, 0 where there is none; nothing where it has no `?>`.
pub fn declaration_len(message: &[u8]) -> Option<usize>
    ensures value { result ≡ declaration_len message.now }
    ensures within { IfSome result (λ n. n ≤ length message.now) }
{
    if !is_declared(message) {
        return Some(0);
    }
    message[5..]
        .windows(2)
        .position(|pair| matches!(pair, [b'?', b'>']))
        .map(|at| at + 7)
}
