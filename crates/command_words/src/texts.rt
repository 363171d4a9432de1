// What the program prints of itself.
ghost use Rattle.std.specs.Prelude.{◌≡◌};
ghost use Rattle.command_words.specs.Texts.{help_text, version_text};

/// What the commands are.
#[tactic(auto, unfolding(crate::specs::Texts::help_text))]
pub fn help_text() -> &'static str
    ensures { result.now ≡ help_text }
{
    "cache_tool: a disk cache that is proved\n\n\
     cache_tool replay < SCRIPT      runs a script: one line of output for each step\n\
     cache_tool work N < SCRIPT      runs a script whose lines behind split are jobs of N workers, 1 to 16\n\
     cache_tool inspect NAME         prints the span of a device and both copies of its directory, and writes nothing\n\
     cache_tool check NAME           prints what a device opens to, and writes nothing\n\
     cache_tool --help, -h           prints this\n\
     cache_tool --version, -V        prints the version, and the toolchain that it is proved with\n\n\
     NAME is the path of a file, or begins with mem:, and one that begins with - stands behind --.\n\
     A copy's fault: 1 gate shut, 2 magic, 3 version, 4 serials, 5 digest, 6 geometry.\n\
     Exit status: 0 done, 2 no such command, 3 bad line, 4 read fault, 5 write fault, 6 no device,\n\
     7 line too long, 8 nothing to open, 9 out of memory, 10 too many lines.\n"
}

/// The version of the program, and the toolchain that it is proved with.
#[tactic(auto, unfolding(crate::specs::Texts::version_text))]
pub fn version_text() -> &'static str
    ensures { result.now ≡ version_text }
{
    "cache_tool 0.9 (rattle-kit-13f logic dac8208d650f15bf)\n"
}
