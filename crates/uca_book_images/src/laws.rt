//! What is true of the images of all books, and of all keys. The functions do nothing: their contracts are the laws.

ghost use Rattle.uca_book_images.specs.Laws.{BooksKeepCompactKeys, ImagesAreBooks, KeptKeysStay, MovedKeysStay};
ghost use Rattle.uca_book_images.specs.KeptPlaces.{StartsBecomeTheirImages, RisingMapsKeepPlaces};
ghost use Rattle.uca_book_images.specs.Worked.{WorkedImages};

/// The image of a book is a book, whatever the map is.
pub fn images_are_books()
    ensures { ImagesAreBooks }
{}

/// If each start has an image, and these rise, they are the starts of the image.
pub fn starts_become_their_images()
    ensures { StartsBecomeTheirImages }
{}

/// Each start becomes its image under a rising map, or the weight after the last image below it. Then a weight and its
/// image are in cells of one number. So the weight keeps its place, if it is as far from the start of its cell, and as many
/// bytes say so.
pub fn rising_maps_keep_places()
    ensures { RisingMapsKeepPlaces }
{}

/// A key has the compact key that it had, under a new book, if each of its weights keeps its place. The weights may be
/// others, as long as three things stay. Each cell has the number that it had, and the offset there is the old one, in as
/// many bytes. A lead, FB00 to FBFF at level 1, stays one, and no other weight becomes one. The code points are the same.
pub fn kept_keys_stay()
    ensures { KeptKeysStay }
{}

/// A stored key that is put through rising maps has the compact key that it had, under a new book, if each of its
/// weights keeps its place.
pub fn moved_keys_stay()
    ensures { MovedKeysStay }
{}

/// A book becomes its image, and a stored key is put through the same rising maps, as `uca book` and `uca rekey` do. No start
/// of the book is pushed up or left out. The weights of the key keep their offsets in their cells, and those of levels 2
/// and 3 stay. Then `uca compact` makes of the new key by the new book what it made of the old key by the old book.
pub fn books_keep_compact_keys()
    ensures { BooksKeepCompactKeys }
{}

/// The definitions give some images that were worked out by hand, and a key that stays.
pub fn worked_images()
    ensures { WorkedImages }
{}
