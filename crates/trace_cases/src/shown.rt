// Cases that are shown of the definitions.
ghost use Rattle.std.specs.Prelude.{◌≡◌, length, All};
ghost use Rattle.trace_cases.specs.Cases.{IsSo, cases};

// How many cases there are: the definitions give what each of them says.
pub fn shown() -> usize
    ensures count { result ≡ length cases }
    ensures hold { All IsSo cases }
{
    7
}
