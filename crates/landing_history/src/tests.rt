// A file that grows between two readings: what the definitions give, worked out by hand.
ghost use Rattle.std.specs.Prelude.{◌≡◌, ◌∷◌, [], true};
ghost use Rattle.value_core.specs.declared.cursor.Format.TheVariants.{Csv};
ghost use Rattle.landing_history.specs.GrowingFile.{bytes_later, files_with, folder, name, row_of_digit, two_readings};
ghost use Rattle.landing_history.specs.Readings.{AreReadings, places_after, rows_found};
ghost use Rattle.landing_history.specs.Taken.{taken};

/// Each row is found once, in the reading before which it ended; a row that has only begun isn't.
fn a_growing_file()
    ensures can_be { AreReadings folder two_readings (files_with bytes_later) }
    ensures places { places_after folder two_readings ≡ record { file = name; place = 10 } ∷ [] }
    ensures found { rows_found Csv true folder two_readings ≡ row_of_digit 49 ∷ row_of_digit 50 ∷ row_of_digit 51 ∷ [] }
    ensures taken { taken Csv true folder (files_with bytes_later) (places_after folder two_readings) ≡ row_of_digit 49 ∷ row_of_digit 50 ∷ row_of_digit 51 ∷ [] }
{}

#[test]
fn two_readings_find_each_row_once() {
    a_growing_file();
}
