// What a data byte of an active command is for.
#[derive(Clone, Copy)]
pub enum Use {
    // Beyond the largest count, for the first time.
    Extra,
    // Only counted.
    Quiet,
    // The first byte of PSR asks for a soft reset.
    Soft,
    Sleep,
    // Another check code of DSLP.
    Wrong,
    Register,
    // A pixel byte of the old plane, or of the new one.
    Older,
    Newer,
}
