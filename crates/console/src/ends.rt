// Lines and the byte that ends them.
ghost use Rattle.std.specs.Prelude.{◌≡◌};
ghost use Rattle.console.specs.Ends.{without_end};

// A line without the byte 10 that ends it, which the last may lack.
pub fn without_end(line: &[u8]) -> &[u8]
    ensures { result.now ≡ without_end line.now }
{
    line.strip_suffix(b"\n").unwrap_or(line)
}
