// The C archive: an export for each function of the crate pft, under its name and with its promises.
#![tactic(auto)]

ghost use Rattle.std.specs.Prelude.{◌≡◌, length};
ghost use Rattle.vm.specs.Machine as M;
ghost use Rattle.direct.specs.Direct.{direct};
ghost use Rattle.build.specs.Build.{build, question, load};
ghost use Rattle.capture.specs.Capture.{frame_at};
ghost use Rattle.count.specs.Count.{count};
ghost use Rattle.typing.specs.Typed.{typed};
ghost use Rattle.pft.specs.Numbers.{version, run_number, build_number, direct_number, count_number, frame_number, type_number};

// The number of this interface.
#[unsafe(no_mangle)]
pub extern "C" fn pft_version() -> u32
    ensures { result ≡ version }
{
    pft::pft_version()
}

// The build of a tree file into a lent buffer, as one number. Here and below the tree and the buffer are two parameters, as C passes them.
#[unsafe(no_mangle)]
pub extern "C" fn pft_build(tree: &[u8], program: &mut [u8]) -> u32
    ensures { (result ≡ build_number (build tree.now (length program.old)).answer) × (program.new ≡ (build tree.now (length program.old)).buffer) }
{
    pft::pft_build(tree, program)
}

// The count or refusal of a tree file, as one number.
#[unsafe(no_mangle)]
pub extern "C" fn pft_question(tree: &[u8]) -> u32
    ensures { result ≡ build_number (question tree.now) }
{
    pft::pft_question(tree)
}

// The build of a tree file that still has this count, as one number.
#[unsafe(no_mangle)]
pub extern "C" fn pft_load(tree: &[u8], count: u32, program: &mut [u8]) -> u32
    ensures { (result ≡ build_number (load tree.now count (length program.old)).answer) × (program.new ≡ (load tree.now count (length program.old)).buffer) }
{
    pft::pft_load(tree, count, program)
}

// The direct reading of a tree file on a frame, as one number.
#[unsafe(no_mangle)]
pub extern "C" fn pft_direct(tree: &[u8], frame: &[u8]) -> u32
    ensures { result ≡ direct_number (direct tree.now frame.now) }
{
    pft::pft_direct(tree, frame)
}

// The run of a program over a frame, as one number.
#[unsafe(no_mangle)]
pub extern "C" fn pft_run(program: &[u8], frame: &[u8]) -> u32
    ensures { result ≡ run_number (M.run program.now frame.now) }
{
    pft::pft_run(program, frame)
}

// The count of a capture's frames that a tree file's program accepts, as one number.
#[unsafe(no_mangle)]
pub extern "C" fn pft_count(tree: &[u8], program: &mut [u8], capture: &[u8]) -> u64
    ensures { (result ≡ count_number (count tree.now (length program.old) capture.now).answer) × (program.new ≡ (count tree.now (length program.old) capture.now).buffer) }
{
    pft::pft_count(tree, program, capture)
}

// The captured length of the frame whose header stands at a place of a capture, as one number.
#[unsafe(no_mangle)]
pub extern "C" fn pft_frame(capture: &[u8], at: usize) -> u64
    ensures { result ≡ frame_number (frame_at capture.now at) }
{
    pft::pft_frame(capture, at)
}

// The tree file of a typed line in 3,080 lent bytes, as one number.
#[unsafe(no_mangle)]
pub extern "C" fn pft_type(link: u8, text: &[u8], tree: &mut [u8; 3080]) -> u64
    ensures { (result ≡ type_number (typed link text.now).answer) × (tree.new ≡ (typed link text.now).tree) }
{
    pft::pft_type(link, text, tree)
}
